// A table with n and t made ready for stepping, read once a call: what a step needs of a rule stands in its place, and a
// threshold is one number.
#![tactic(auto)]

ghost use Rattle.std.specs.Prelude.{◌≡◌, ℕ, slice_index, ◌+◌, ◌*◌, ◌≤◌, ◌<◌, length, set};
ghost use Rattle.senders.specs.Set.{most_tolerated};
ghost use Rattle.threshold.specs.Threshold.{threshold_of, least_of};
ghost use Rattle.layout.specs.Layout.{end_bytes, weights_of};
ghost use Rattle.table.specs.Table.{from_of, to_of, rule_of};
ghost use Rattle.words.specs.Facts.{Bounded};
ghost use Rattle.rules.specs.Design.{sends_of, design_of};
ghost use Rattle.rules.specs.Kept.{kept_from, kept_to, kept_sends, kept_least, Kept};
ghost use Rattle.rules.specs.Facts.{Suits, Recorded, RowTo};

use words::Sizes;

// The bytes, and the numbers, that keep the rules of any table: 64 rules, four each.
pub const ROOM: usize = 256;

// Room for the rules of any table, and the numbers that stepping goes by: of each rule its ends and the type that it sends, and for
// each type the least count that meets its threshold.
#[derive(Clone, Copy)]
pub struct Room {
    pub sizes: Sizes,
    pub ends: [u8; ROOM],
    pub leasts: [u16; ROOM],
    ghost bounded: { Bounded sizes },
    ghost bytes: { (i : ℕ) → slice_index ends i < 256 },
}

// The same as they lie there: a value that stepping hands on, so that no write to other memory makes it read them again.
#[derive(Clone, Copy)]
pub struct Rules<'a> {
    pub sizes: Sizes,
    pub ends: &'a [u8; ROOM],
    pub leasts: &'a [u16; ROOM],
    ghost bounded: { Bounded sizes },
    ghost bytes: { (i : ℕ) → slice_index ends.now i < 256 },
}

impl Room {
    // With no rule in it.
    pub fn none() -> Room
        ensures { result.sizes.rules ≡ 0 }
    {
        Room {
            sizes: words::none(),
            ends: [0; ROOM],
            leasts: [0; ROOM],
        }
    }

    // The rules that are kept there.
    pub fn rules<'a>(&'a self) -> Rules<'a>
        ensures { (result.sizes ≡ self.now.sizes) × (result.ends.now ≡ self.now.ends) × (result.leasts.now ≡ self.now.leasts) }
    {
        Rules {
            sizes: self.sizes,
            ends: &self.ends,
            leasts: &self.leasts,
        }
    }

    // ---- reading them
    // Keeps all rules of the table, record by record.
    pub fn keep(&mut self, table: &[u8], t: usize, s: Sizes)
        requires { (Suits s table.now) × (t ≤ most_tolerated) × (t ≡ s.tolerated) }
        ensures { (self.new.sizes ≡ s) × Kept (design_of s t table.now) s self.new.ends self.new.leasts }
    {
        let states = table::states(table);
        let byte = table::types_byte(table);
        for r in 0..s.rules {
            let rule = table::rule(table, states, byte, r);
            keep_ends(table, rule, s, &mut self.ends, r);
            keep_leasts(rule, byte, t, s, &mut self.leasts, r);
        }
        self.sizes = s;
    }
}

impl<'a> Rules<'a> {
    // ---- what is kept
    // The state that rule r leaves.
    pub fn from(&self, r: usize) -> usize
        requires { r < 64 }
        ensures { (result ≡ kept_from self.now.ends.now r) × (result < 256) }
    {
        usize::from(self.ends[r * 4])
    }

    // The state that it enters.
    pub fn to(&self, r: usize) -> usize
        requires { r < 64 }
        ensures { (result ≡ kept_to self.now.ends.now r) × (result < 256) }
    {
        usize::from(self.ends[r * 4 + 1])
    }

    // The type that it sends; as many as there are types where it sends none.
    pub fn sends(&self, r: usize) -> usize
        requires { r < 64 }
        ensures { result ≡ kept_sends self.now.ends.now r }
    {
        usize::from(self.ends[r * 4 + 2])
    }

    // The least count of type m that meets its threshold.
    pub fn least(&self, r: usize, m: usize) -> u64
        requires { (r < 64) × (m < 4) }
        ensures { (result ≡ kept_least self.now.leasts.now r m) × (result < 65536) }
    {
        u64::from(self.leasts[r * 4 + m])
    }
}

// The ends of rule r and the type that it sends, read before the first is written.
fn keep_ends(table: &[u8], rule: &[u8], s: Sizes, ends: &mut [u8; ROOM], r: usize)
    requires { (Suits s table.now) × (r < s.rules) × (rule.now ≡ rule_of table.now r) × (end_bytes ≤ length rule.now) }
    ensures stored { ends.new ≡ set (set (set ends.old (r * 4) (from_of table.now r)) (r * 4 + 1) (to_of table.now r)) (r * 4 + 2) (sends_of s.types table.now r) }
    ensures bytes { (i : ℕ) → slice_index ends.new i < 256 }
{
    let from = layout::leaves(rule);
    let to = layout::enters(rule);
    let sends = sent_by(table, s, r, from, to);
    let at = r * 4;
    ends[at] = from as u8;
    ends[at + 1] = to as u8;
    ends[at + 2] = sends as u8;
}

// The type that rule r sends, by the masks of its ends; as many as there are types where it sends none.
fn sent_by(table: &[u8], s: Sizes, r: usize, from: usize, to: usize) -> usize
    requires { (Suits s table.now) × (r < s.rules) × (from ≡ from_of table.now r) × (to ≡ to_of table.now r) }
    ensures { (result ≡ sends_of s.types table.now r) × (result ≤ 4) }
{
    let old = table::sent(table, from) as u64;
    let new = table::sent(table, to) as u64;
    senders::lowest_missing(new, old, s.types as u64) as usize
}

// For each type, the least count that meets the threshold in the record of rule r.
fn keep_leasts(rule: &[u8], byte: usize, t: usize, s: Sizes, leasts: &mut [u16; ROOM], r: usize)
    requires { (Bounded s) × (t ≤ most_tolerated) × (r < s.rules) × (Recorded s byte rule.now) }
    ensures { RowTo s byte t rule.now leasts.old leasts.new r s.types }
{
    for m in 0..s.types {
        leasts[r * 4 + m] = least_in(rule, byte, m, t, s);
    }
}

// The least count of type m that meets the threshold in a rule's record.
fn least_in(rule: &[u8], byte: usize, m: usize, t: usize, s: Sizes) -> u16
    requires { (Bounded s) × (t ≤ most_tolerated) × (m < s.types) × (Recorded s byte rule.now) }
    ensures { result ≡ least_of (threshold_of (weights_of byte rule.now m) (s.correct + s.faulty) t) }
{
    let n = s.correct + s.faulty;
    threshold::least(layout::weights(rule, byte, m), n as u64, t as u64)
}
