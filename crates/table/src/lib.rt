// The table part: refusals 1 to 9, and the views that stepping needs.
#![tactic(auto)]

ghost use Rattle.std.specs.Prelude.{◌≡◌, ◌+◌, ◌*◌, ◌≤◌, ◌<◌, length};
ghost use Rattle.fault.specs.Bytes.{trailer_bytes};
ghost use Rattle.senders.specs.Tally.{count};
ghost use Rattle.senders.specs.Set.{missing};
ghost use Rattle.fault.specs.Fault.{first_fault};
ghost use Rattle.fault.specs.Refusals.{code, told};
ghost use Rattle.table.specs.Table.{states_of, rules_of, types_byte, types_of, factor_of, flags_of, initial_of, sent_of, rule_size, rule_at, from_of, to_of, rule_of};
ghost use Rattle.table.specs.Refusals.{too_short, counts_outside, counts_off, distances_off, state_off, no_initial, no_state, divisor_off, sends_two, state_fault, rule_fault, records_fault, table_fault};
ghost use Rattle.table.specs.Refusals as refusals;
ghost use Rattle.table.specs.Facts.{Sized, RuleEnds};

use fault::refusals::{Refusal, Refused, lowest};

// The most that the counts but T may be; the least is 1.
pub const MOST_STATES: usize = 16;

pub const MOST_RULES: usize = 64;

pub const MOST_FACTOR: usize = 8;

// How many bytes a state has: its flags and the mask of types sent.
pub const STATE_BYTES: usize = 2;

// The most bytes that a table has: its states, its rules and a trailer.
pub const MOST_BYTES: usize = STATE_BYTES * MOST_STATES
    + MOST_RULES * layout::MOST_RULE_BYTES
    + fault::TRAILER_BYTES;

// The table's first refusal, for every byte string.
pub fn table_fault(s: &[u8]) -> Result<(), Refused>
    ensures { told result ≡ table_fault s.now }
{
    if too_short(s) {
        return Err(Refusal::TableShort.at(0));
    }
    if counts_off(s) {
        return Err(Refusal::CountsOutside.at(0));
    }
    if distances_off(s) {
        return Err(Refusal::DistancesOff.at(0));
    }
    records_fault(s)
}

// The first refusal of the records, once the trailer is read.
fn records_fault(s: &[u8]) -> Result<(), Refused>
    requires { Sized s.now }
    ensures { told result ≡ records_fault s.now }
{
    states_fault(s)?;
    if no_initial(s) {
        return Err(Refusal::NoInitial.at(0));
    }
    rules_fault(s)
}

// ---- the trailer
pub fn states(s: &[u8]) -> usize
    requires { trailer_bytes ≤ length s.now }
    ensures { (result ≡ states_of s.now) × (result < 256) }
{
    fault::trailer_byte(s, 4)
}

pub fn rules(s: &[u8]) -> usize
    requires { trailer_bytes ≤ length s.now }
    ensures { (result ≡ rules_of s.now) × (result < 256) }
{
    fault::trailer_byte(s, 5)
}

// The number of types, and 16 more in the second edition.
pub fn types_byte(s: &[u8]) -> usize
    requires { trailer_bytes ≤ length s.now }
    ensures { (result ≡ types_byte s.now) × (result < 256) }
{
    fault::trailer_byte(s, 6)
}

pub fn types(s: &[u8]) -> usize
    requires { trailer_bytes ≤ length s.now }
    ensures { (result ≡ types_of s.now) × (result < 256) }
{
    layout::types_in(types_byte(s))
}

pub fn factor(s: &[u8]) -> usize
    requires { trailer_bytes ≤ length s.now }
    ensures { (result ≡ factor_of s.now) × (result < 256) }
{
    fault::trailer_byte(s, 7)
}

// 1
fn too_short(s: &[u8]) -> bool
    ensures { result ≡ too_short s.now }
{
    s.len() < fault::TRAILER_BYTES
}

// 2
fn counts_off(s: &[u8]) -> bool
    requires { trailer_bytes ≤ length s.now }
    ensures { result ≡ counts_off s.now }
{
    counts_outside(states(s), rules(s), types(s), factor(s))
}

// Is one of the counts none that a table may have?
pub fn counts_outside(states: usize, rules: usize, types: usize, factor: usize) -> bool
    ensures { result ≡ counts_outside states rules types factor }
{
    fault::outside(1, MOST_STATES, states)
        | fault::outside(1, MOST_RULES, rules)
        | fault::outside(1, layout::MOST_TYPES, types)
        | fault::outside(1, MOST_FACTOR, factor)
}

// 3
fn distances_off(s: &[u8]) -> bool
    requires { trailer_bytes ≤ length s.now }
    ensures { result ≡ distances_off s.now }
{
    let rules = fault::times(rules(s), layout::rule_bytes(types_byte(s)));
    let back = fault::trailer_u16(s, 0);
    (back != STATE_BYTES * states(s) + rules)
        | (fault::trailer_u16(s, 2) != rules)
        | (s.len() != back + fault::TRAILER_BYTES)
}

// ---- the states
pub fn flags(s: &[u8], i: usize) -> usize
    requires { (Sized s.now) × (i < states_of s.now) }
    ensures { (result ≡ flags_of s.now i) × (result < 256) }
{
    fault::byte_at(s, STATE_BYTES * i)
}

// The mask of the types that a state has sent.
pub fn sent(s: &[u8], i: usize) -> usize
    requires { (Sized s.now) × (i < states_of s.now) }
    ensures { (result ≡ sent_of s.now i) × (result < 256) }
{
    fault::byte_at(s, STATE_BYTES * i + 1)
}

pub fn initial(s: &[u8], i: usize) -> bool
    requires { (Sized s.now) × (i < states_of s.now) }
    ensures { result ≡ initial_of s.now i }
{
    senders::has(flags(s, i) as u64, 0)
}

// 4
fn state_off(s: &[u8], i: usize) -> bool
    requires { (Sized s.now) × (i < states_of s.now) }
    ensures { result ≡ state_off s.now i }
{
    let sent = sent(s, i);
    (3 < flags(s, i)) | ((1usize << types(s)) <= sent) | (initial(s, i) & (0 < sent))
}

fn state_fault(s: &[u8], i: usize) -> Result<(), Refusal>
    requires { (Sized s.now) × (i < states_of s.now) }
    ensures { code result ≡ state_fault s.now i }
{
    if state_off(s, i) {
        Err(Refusal::StateOff)
    } else {
        Ok(())
    }
}

// The lowest state at fault.
fn states_fault(s: &[u8]) -> Result<(), Refused>
    requires { Sized s.now }
    ensures { told result ≡ first_fault (state_fault s.now) (states_of s.now) }
{
    lowest(states(s), |i| state_fault(s, i))
}

// 5
fn no_initial(s: &[u8]) -> bool
    requires { Sized s.now }
    ensures { result ≡ no_initial s.now }
{
    !(0..states(s)).any(|i| initial(s, i))
}

// ---- the rules
// Where a rule's record starts. The whole record lies before the trailer.
pub fn rule_at(s: &[u8], k: usize) -> usize
    requires { (Sized s.now) × (k < rules_of s.now) }
    ensures { (result ≡ rule_at s.now k) × (result + rule_size s.now + trailer_bytes ≤ length s.now) }
{
    place_of(s, states(s), types_byte(s), k)
}

// The same, by the number of states and the types byte that were read before.
fn place_of(s: &[u8], states: usize, byte: usize, k: usize) -> usize
    requires { (Sized s.now) × (states ≡ states_of s.now) × (byte ≡ types_byte s.now) × (byte < 256) × (k < rules_of s.now) }
    ensures { (result ≡ rule_at s.now k) × (result + rule_size s.now + trailer_bytes ≤ length s.now) }
{
    STATE_BYTES * states + fault::times(k, layout::rule_bytes(byte))
}

pub fn from(s: &[u8], k: usize) -> usize
    requires { (Sized s.now) × (k < rules_of s.now) }
    ensures { (result ≡ from_of s.now k) × (result < 256) }
{
    fault::byte_at(s, rule_at(s, k))
}

pub fn to(s: &[u8], k: usize) -> usize
    requires { (Sized s.now) × (k < rules_of s.now) }
    ensures { (result ≡ to_of s.now k) × (result < 256) }
{
    fault::byte_at(s, rule_at(s, k) + 1)
}

// The record of a rule, as a part, by the number of states and the types byte: a loop over the rules reads them once. No byte is copied.
pub fn rule(s: &[u8], states: usize, byte: usize, k: usize) -> &[u8]
    requires { (Sized s.now) × (states ≡ states_of s.now) × (byte ≡ types_byte s.now) × (byte < 256) × (k < rules_of s.now) }
    ensures { (result.now ≡ rule_of s.now k) × (length result.now ≡ rule_size s.now) }
{
    let at = place_of(s, states, byte, k);
    let end = at + layout::rule_bytes(byte);
    &s[at..end]
}

// 6
fn no_state(s: &[u8], k: usize) -> bool
    requires { (Sized s.now) × (k < rules_of s.now) }
    ensures { result ≡ no_state s.now k }
{
    let n = states(s);
    (n <= from(s, k)) | (n <= to(s, k))
}

// 9
fn divisor_off(s: &[u8], k: usize) -> bool
    requires { (Sized s.now) × (k < rules_of s.now) }
    ensures { result ≡ divisor_off s.now k }
{
    let byte = types_byte(s);
    layout::divisor_outside(rule(s, states(s), byte, k), byte)
}

// How many types state a has sent and state b has not.
fn unsent(s: &[u8], a: usize, b: usize) -> u64
    requires { (Sized s.now) × (a < states_of s.now) × (b < states_of s.now) }
    ensures { result ≡ count (types_of s.now) (missing (sent_of s.now a) (sent_of s.now b)) }
{
    senders::missing_count(sent(s, a) as u64, sent(s, b) as u64, types(s) as u64)
}

// 7
fn forgets(s: &[u8], k: usize) -> bool
    requires sized { (Sized s.now) × (k < rules_of s.now) }
    requires rule_ends { RuleEnds s.now k }
    ensures { result ≡ refusals.forgets s.now k }
{
    0 < unsent(s, from(s, k), to(s, k))
}

// 8
fn sends_two(s: &[u8], k: usize) -> bool
    requires sized { (Sized s.now) × (k < rules_of s.now) }
    requires rule_ends { RuleEnds s.now k }
    ensures { result ≡ sends_two s.now k }
{
    1 < unsent(s, to(s, k), from(s, k))
}

fn rule_fault(s: &[u8], k: usize) -> Result<(), Refusal>
    requires { (Sized s.now) × (k < rules_of s.now) }
    ensures { code result ≡ rule_fault s.now k }
{
    if no_state(s, k) {
        return Err(Refusal::NoState);
    }
    if divisor_off(s, k) {
        return Err(Refusal::DivisorOff);
    }
    if forgets(s, k) {
        return Err(Refusal::Forgets);
    }
    if sends_two(s, k) {
        return Err(Refusal::SendsTwo);
    }
    Ok(())
}

// The lowest rule at fault.
fn rules_fault(s: &[u8]) -> Result<(), Refused>
    requires { Sized s.now }
    ensures { told result ≡ first_fault (rule_fault s.now) (rules_of s.now) }
{
    lowest(rules(s), |k| rule_fault(s, k))
}
