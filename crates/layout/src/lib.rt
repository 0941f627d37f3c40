// The record of a rule, by the types byte: T in the first edition, 16 more in the second, where each type has a divisor too.
#![tactic(auto)]

ghost use Rattle.std.specs.Prelude.{◌≡◌, ◌+◌, ◌≤◌, ◌<◌, length};
ghost use Rattle.fault.specs.Bytes.{byte_at};
ghost use Rattle.senders.specs.Tally.{some};
ghost use Rattle.layout.specs.Layout.{second_of, types_in, end_bytes, type_bytes, weight_bytes, rule_bytes, divisor_at, weights_at, weights_of, divisor_outside};

use threshold::Weights;

// The most types that a table has; the least is 1.
pub const MOST_TYPES: usize = 4;

// How many bytes a rule has for its ends, and for each type: a, b, d, and in the second edition e.
pub const END_BYTES: usize = 2;

const FIRST_TYPE_BYTES: usize = 3;

const SECOND_TYPE_BYTES: usize = 4;

// How much higher the types byte is in the second edition; and the most that a divisor may be.
pub const SECOND: usize = 16;

pub const MOST_DIVISOR: usize = 8;

// The most bytes that a rule has.
pub const MOST_RULE_BYTES: usize = END_BYTES + SECOND_TYPE_BYTES * MOST_TYPES;

// Whether a types byte is of the second edition.
pub fn second(byte: usize) -> bool
    ensures { result ≡ second_of byte }
{
    SECOND <= byte
}

// The number of types that a types byte says.
pub fn types_in(byte: usize) -> usize
    requires { byte < 256 }
    ensures { (result ≡ types_in byte) × (result < 256) }
{
    if second(byte) { byte - SECOND } else { byte }
}

// How many bytes a rule then has for one type.
pub fn type_bytes(byte: usize) -> usize
    ensures { (result ≡ type_bytes byte) × (3 ≤ result) × (result ≤ 4) }
{
    if second(byte) {
        SECOND_TYPE_BYTES
    } else {
        FIRST_TYPE_BYTES
    }
}

// For all types.
pub fn weight_bytes(byte: usize) -> usize
    requires { byte < 256 }
    ensures { (result ≡ weight_bytes byte) × (result ≤ 1020) }
{
    fault::times(type_bytes(byte), types_in(byte))
}

// And in all.
pub fn rule_bytes(byte: usize) -> usize
    requires { byte < 256 }
    ensures { (result ≡ rule_bytes byte) × (result ≤ 1022) }
{
    END_BYTES + weight_bytes(byte)
}

// Of a rule's record, the state that it leaves.
pub fn leaves(rule: &[u8]) -> usize
    requires { end_bytes ≤ length rule.now }
    ensures { (result ≡ byte_at rule.now 0) × (result < 256) }
{
    fault::byte_at(rule, 0)
}

// And the state that it enters.
pub fn enters(rule: &[u8]) -> usize
    requires { end_bytes ≤ length rule.now }
    ensures { (result ≡ byte_at rule.now 1) × (result < 256) }
{
    fault::byte_at(rule, 1)
}

// Of a rule's record, what it says of type m.
pub fn weights(rule: &[u8], byte: usize, m: usize) -> Weights
    requires { (byte < 256) × (m < types_in byte) × (length rule.now ≡ rule_bytes byte) }
    ensures { result ≡ weights_of byte rule.now m }
{
    let before = fault::times(type_bytes(byte), m);
    weights_at(rule, byte, END_BYTES + before)
}

// The same, by where the bytes of the type begin.
fn weights_at(rule: &[u8], byte: usize, at: usize) -> Weights
    requires { at + type_bytes byte ≤ length rule.now }
    ensures { result ≡ weights_at byte rule.now at }
{
    Weights {
        a: rule[at],
        b: rule[at + 1],
        d: rule[at + 2],
        e: divisor(rule, byte, at),
    }
}

// The divisor of the type whose bytes begin at `at`: 1 in the first edition.
fn divisor(rule: &[u8], byte: usize, at: usize) -> u8
    requires { at + type_bytes byte ≤ length rule.now }
    ensures { result ≡ divisor_at byte rule.now at }
{
    if second(byte) { rule[at + 3] } else { 1 }
}

// Has a rule's record a divisor that is none?
pub fn divisor_outside(rule: &[u8], byte: usize) -> bool
    requires { (byte < 256) × (length rule.now ≡ rule_bytes byte) }
    ensures { result ≡ some (types_in byte) (divisor_outside byte rule.now) }
{
    (0..types_in(byte)).any(|m| outside_at(rule, byte, m))
}

// Is that of type m none?
fn outside_at(rule: &[u8], byte: usize, m: usize) -> bool
    requires { (byte < 256) × (m < types_in byte) × (length rule.now ≡ rule_bytes byte) }
    ensures { result ≡ divisor_outside byte rule.now m }
{
    let w = weights(rule, byte, m);
    fault::outside(1, MOST_DIVISOR, w.e as usize)
}
