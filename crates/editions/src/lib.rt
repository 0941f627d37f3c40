// A table moved to the other edition of rules.
#![tactic(auto)]

ghost use Rattle.std.specs.Prelude.{◌≡◌, ◌+◌, ◌≤◌, ◌<◌, length};
ghost use Rattle.senders.specs.Tally.{some};
ghost use Rattle.fault.specs.Fault.{fine, first_fault};
ghost use Rattle.fault.specs.Refusals.{code, told, answer_of};
ghost use Rattle.layout.specs.Layout.{types_in, rule_bytes};
ghost use Rattle.table.specs.Table.{rules_of, types_of};
ghost use Rattle.table.specs.Facts.{Sized};
ghost use Rattle.ink.specs.Ink.{given, left, Put};
ghost use Rattle.editions.specs.Moved.{bytes_in, types_from, record_in, rules_from, moved_to};
ghost use Rattle.editions.specs.Entry.{divided_by, rule_divides, to_second_answer, to_second_bytes, to_first_answer, to_first_bytes};

use fault::Answer;
use fault::refusals::{Refusal, Refused, lowest};
use threshold::Weights;

// Writes a table of the first edition in the second, with every e equal to 1: refusal, place, bytes written.
pub fn to_second(table: &[u8], out: &mut [u8]) -> Answer
    ensures value { result ≡ to_second_answer table.now (length out.old) }
    ensures out_after { out.new ≡ to_second_bytes table.now out.old }
{
    Answer::from(moved_up(table, out))
}

fn moved_up(table: &[u8], out: &mut [u8]) -> Result<usize, Refused>
    ensures value { answer_of result ≡ to_second_answer table.now (length out.old) }
    ensures out_after { out.new ≡ to_second_bytes table.now out.old }
{
    table::table_fault(table)?;
    let byte = table::types_byte(table);
    if layout::second(byte) {
        return Err(Refusal::SameEdition.at(0));
    }
    give(table, byte + layout::SECOND, out)
}

// Writes a table of the second edition, where every e is 1, in the first: refusal, place, bytes written.
pub fn to_first(table: &[u8], out: &mut [u8]) -> Answer
    ensures value { result ≡ to_first_answer table.now (length out.old) }
    ensures out_after { out.new ≡ to_first_bytes table.now out.old }
{
    Answer::from(moved_down(table, out))
}

fn moved_down(table: &[u8], out: &mut [u8]) -> Result<usize, Refused>
    ensures value { answer_of result ≡ to_first_answer table.now (length out.old) }
    ensures out_after { out.new ≡ to_first_bytes table.now out.old }
{
    table::table_fault(table)?;
    divided(table)?;
    let byte = table::types_byte(table);
    if !layout::second(byte) {
        return Err(Refusal::SameEdition.at(0));
    }
    give(table, byte - layout::SECOND, out)
}

// ---- 32
// The lowest rule with an e other than 1.
fn divided(table: &[u8]) -> Result<(), Refused>
    requires { Sized table.now }
    ensures { told result ≡ first_fault (rule_divides table.now) (rules_of table.now) }
{
    lowest(table::rules(table), |r| rule_divides(table, r))
}

fn rule_divides(table: &[u8], r: usize) -> Result<(), Refusal>
    requires { (Sized table.now) × (r < rules_of table.now) }
    ensures { code result ≡ rule_divides table.now r }
{
    let byte = table::types_byte(table);
    let rule = table::rule(table, table::states(table), byte, r);
    if divides(rule, byte) {
        return Err(Refusal::Divides);
    }
    Ok(())
}

// Has a rule's record an e other than 1?
fn divides(rule: &[u8], byte: usize) -> bool
    requires { (byte < 256) × (length rule.now ≡ rule_bytes byte) }
    ensures { result ≡ some (types_in byte) (divided_by byte rule.now) }
{
    for m in 0..layout::types_in(byte) {
        if divides_at(rule, byte, m) {
            return true;
        }
    }
    false
}

// Is that of type m another?
fn divides_at(rule: &[u8], byte: usize, m: usize) -> bool
    requires { (byte < 256) × (m < types_in byte) × (length rule.now ≡ rule_bytes byte) }
    ensures { result ≡ divided_by byte rule.now m }
{
    let w = layout::weights(rule, byte, m);
    w.e != 1
}

// ---- what is written
// The table with this types byte into the lent bytes, if it has room there.
fn give(table: &[u8], byte: usize, out: &mut [u8]) -> Result<usize, Refused>
    requires { (Sized table.now) × (byte < 256) × (types_in byte ≡ types_of table.now) }
    ensures value { answer_of result ≡ given 30 fine (moved_to byte table.now) (length out.old) }
    ensures out_after { out.new ≡ left fine (moved_to byte table.now) out.old }
{
    let rules = fault::times(table::rules(table), layout::rule_bytes(byte));
    let n = table::STATE_BYTES * table::states(table) + rules + fault::TRAILER_BYTES;
    if out.len() < n {
        return Err(Refusal::LentShort.at(0));
    }
    write(table, byte, out);
    Ok(n)
}

// States, rules and trailer.
fn write(table: &[u8], byte: usize, out: &mut [u8])
    requires { (Sized table.now) × (byte < 256) × (types_in byte ≡ types_of table.now) }
    ensures { Put out.old 0 (moved_to byte table.now) (length (moved_to byte table.now)) out.new }
{
    let states = table::states(table);
    let n = ink::put_all(out, 0, &table[..table::STATE_BYTES * states]);
    let n = put_rules(table, byte, out, n);
    trailer::put(
        out,
        n,
        states,
        table::rules(table),
        byte,
        table::factor(table),
    );
}

// The records of all rules at n; and the place after them.
fn put_rules(table: &[u8], byte: usize, out: &mut [u8], n: usize) -> usize
    requires { (Sized table.now) × (n ≤ 65536) }
    ensures { Put out.old n (rules_from byte table.now (rules_of table.now) 0) result out.new × (result ≤ n + 65536) }
{
    let own = table::types_byte(table);
    let states = table::states(table);
    let mut m = n;
    for r in 0..table::rules(table) {
        let rule = table::rule(table, states, own, r);
        m = put_rule(rule, own, byte, out, m);
    }
    m
}

// One rule's record, which is in the edition of `own`, at n; and the place after it.
fn put_rule(rule: &[u8], own: usize, byte: usize, out: &mut [u8], n: usize) -> usize
    requires { (own < 256) × (length rule.now ≡ rule_bytes own) × (n ≤ 131072) }
    ensures { Put out.old n (record_in byte own rule.now) result out.new × (result ≤ n + 1024) }
{
    let n = ink::put(out, n, rule[0]);
    let n = ink::put(out, n, rule[1]);
    put_types(rule, own, byte, out, n)
}

// What it says of each type.
fn put_types(rule: &[u8], own: usize, byte: usize, out: &mut [u8], n: usize) -> usize
    requires { (own < 256) × (length rule.now ≡ rule_bytes own) × (n ≤ 131074) }
    ensures { Put out.old n (types_from byte own rule.now (types_in own) 0) result out.new × (result ≤ n + 1020) }
{
    let mut at = n;
    for m in 0..layout::types_in(own) {
        at = put_type(layout::weights(rule, own, m), byte, out, at);
    }
    at
}

// What it says of one type.
fn put_type(w: Weights, byte: usize, out: &mut [u8], n: usize) -> usize
    requires { n ≤ 132094 }
    ensures { Put out.old n (bytes_in byte w) result out.new × (result ≤ n + 4) }
{
    let n = ink::put(out, n, w.a);
    let n = ink::put(out, n, w.b);
    let n = ink::put(out, n, w.d);
    if layout::second(byte) {
        return ink::put(out, n, w.e);
    }
    n
}
