// A step of a schedule by value, and its record of 4 bytes: board, rule, type, source.
#![tactic(auto)]

ghost use Rattle.std.specs.Prelude.{◌≡◌, ◌+◌, ◌*◌, ◌≤◌, ◌<◌, length, set};
ghost use Rattle.fault.specs.Bytes.{most_steps};
ghost use Rattle.paper.specs.Paper as paper;
ghost use Rattle.schedule.specs.Records.{meant, record_at, put_record};

// What a record names; `type` is a word of the language.
#[derive(Clone, Copy)]
pub struct Step {
    pub board: usize,
    pub rule: usize,
    pub mtype: usize,
    pub source: usize,
}

// The step that record i names.
pub fn step_at(steps: &[u8], i: usize) -> Step
    requires { (i < most_steps) × (i * 4 + 3 < length steps.now) }
    ensures { (meant result ≡ record_at steps.now i) × (result.source < 256) }
{
    let at = i * 4;
    Step {
        board: fault::byte_at(steps, at),
        rule: fault::byte_at(steps, at + 1),
        mtype: fault::byte_at(steps, at + 2),
        source: fault::byte_at(steps, at + 3),
    }
}

// Record i names another source.
pub fn set_source(steps: &mut [u8], i: usize, q: usize)
    requires { (i < most_steps) × (i * 4 + 3 < length steps.old) × (q < 256) }
    ensures { steps.new ≡ set steps.old (i * 4 + 3) q }
{
    steps[i * 4 + 3] = q as u8;
}

// Does the step come without a message?
pub fn silent(x: Step) -> bool
    ensures { result ≡ paper.silent (meant x) }
{
    (x.mtype == 255) & (x.source == 255)
}

// Record i is that of a step, if it fits.
pub fn put_step(steps: &mut [u8], i: usize, x: Step)
    requires { (i < most_steps) × (x.board ≤ 255) × (x.rule ≤ 255) × (x.mtype ≤ 255) × (x.source ≤ 255) }
    ensures { steps.new ≡ put_record steps.old i (meant x) }
{
    let at = i * 4;
    if at + 3 < steps.len() {
        steps[at] = x.board as u8;
        steps[at + 1] = x.rule as u8;
        steps[at + 2] = x.mtype as u8;
        steps[at + 3] = x.source as u8;
    }
}
