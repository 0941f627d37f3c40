// The text of a drawing and what may stand in it: definitions and theorems, and how a label is laid out; the rest of the code is in `pen` and `drawing`.
#![tactic(auto)]

ghost use Rattle.std.specs.Prelude.{◌≡◌, ◌+◌, ◌%◌, ◌≤◌, ◌<◌};
ghost use Rattle.dot.specs.Text.{state_shape, rule_shape};

// A label's groups: how many numbers each has, and how many of those, from its first on, may be below 0.
#[derive(Clone, Copy)]
pub struct Shape {
    pub group: usize,
    pub signed: usize,
}

// A state's label is one group: flags and mask.
pub fn of_state() -> Shape
    ensures { (result ≡ state_shape) × (1 ≤ result.group) }
{
    Shape {
        group: table::STATE_BYTES,
        signed: 0,
    }
}

// A rule's label has a group for each type: a, b, d, and in the second edition e.
pub fn of_rule(byte: usize) -> Shape
    ensures { (result ≡ rule_shape byte) × (1 ≤ result.group) }
{
    Shape {
        group: layout::type_bytes(byte),
        signed: 3,
    }
}

// The place in its group of the number after one at place i.
pub fn next(i: usize, group: usize) -> usize
    requires { i < group }
    ensures { result ≡ (i + 1) % group }
{
    if i + 1 < group { i + 1 } else { 0 }
}
