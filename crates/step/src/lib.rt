// One step: its refusal, which changes nothing, and its change of at most three words.
#![tactic(auto)]

ghost use Rattle.std.specs.Prelude.{◌≡◌, true, false, not, ◌||◌, ◌+◌, ◌≤◌, ◌<◌, eqb, length};
ghost use Rattle.senders.specs.Tally.{digit};
ghost use Rattle.senders.specs.Set.{correct_count};
ghost use Rattle.fault.specs.Tests.{◌at_least◌, ◌at_most◌, ◌differs◌};
ghost use Rattle.fault.specs.Refusals.{code};
ghost use Rattle.paper.specs.Paper as paper;
ghost use Rattle.paper.specs.Words.{state};
ghost use Rattle.paper.specs.Step.{step_fault};
ghost use Rattle.schedule.specs.Records.{meant};
ghost use Rattle.words.specs.Words.{room_of, column_in, stopped_of};
ghost use Rattle.words.specs.Facts.{at_rest, in_step, Bounded, Holds, Grown};
ghost use Rattle.rules.specs.Kept.{kept_from, ByDesign};
ghost use Rattle.step.specs.Step.{left_by, met_with, moved_by, taken_fault, taken_left, kept_fault, kept_left, Awake, Leaves};

use fault::refusals::Refusal;
use rules::Rules;
use schedule::Step;
use words::Sizes;

// The rule of a step that stops its board.
pub const STOP: usize = 254;

// The step if it is accepted; or its refusal, and no change: for every design that the kept rules stand for.
pub fn step(rules: Rules, w: &mut [u64], x: Step) -> Result<(), Refusal>
    requires { Holds rules.sizes at_rest w.old }
    ensures by_design { ByDesign rules.entry.sizes rules.entry.ends.now rules.entry.leasts.now (λ d. code result ≡ step_fault rules.entry.sizes.level d w.old (meant x)) }
    ensures by_design_2 { ByDesign rules.entry.sizes rules.entry.ends.now rules.entry.leasts.now (λ d. w.new ≡ left_by rules.entry.sizes.level d w.old (meant x)) }
    ensures grown { Grown rules.entry.sizes w.old w.new }
{
    kept_step(rules, w, x)
}

// The same by the kept rules themselves. A step without a message goes its own way after the checks that both have, so that
// neither asks again whether there is one.
fn kept_step(rules: Rules, w: &mut [u64], x: Step) -> Result<(), Refusal>
    requires { Holds rules.sizes at_rest w.old }
    ensures value { code result ≡ kept_fault rules.entry.sizes rules.entry.ends.now rules.entry.leasts.now w.old (meant x) }
    ensures w_after { w.new ≡ kept_left rules.entry.sizes rules.entry.ends.now rules.entry.leasts.now w.old (meant x) }
{
    if at_least(x.board, rules.sizes.correct) {
        return Err(Refusal::NoBoard);
    }
    if words::is_stopped(rules.sizes, w, x.board) {
        return Err(Refusal::Stopped);
    }
    if schedule::silent(x) {
        return silent_step(rules, w, x);
    }
    message_step(rules, w, x)
}

// The rest of a step without a message, of a board that is not stopped. No table has the rule of a stop.
fn silent_step(rules: Rules, w: &mut [u64], x: Step) -> Result<(), Refusal>
    requires { (Holds rules.sizes at_rest w.old) × (Awake rules.sizes w.old (meant x)) × (paper.silent (meant x) ≡ true) }
    ensures value { code result ≡ kept_fault rules.entry.sizes rules.entry.ends.now rules.entry.leasts.now w.old (meant x) }
    ensures w_after { w.new ≡ kept_left rules.entry.sizes rules.entry.ends.now rules.entry.leasts.now w.old (meant x) }
{
    if at_least(x.rule, rules.sizes.rules) {
        return past_rules(rules, w, x);
    }
    if other_state(rules, w, x.board, x.rule) {
        return Err(Refusal::OtherState);
    }
    without_message(rules, w, x)
}

// The rest of a step with one.
fn message_step(rules: Rules, w: &mut [u64], x: Step) -> Result<(), Refusal>
    requires { (Holds rules.sizes at_rest w.old) × (Awake rules.sizes w.old (meant x)) × (paper.silent (meant x) ≡ false) }
    ensures value { code result ≡ kept_fault rules.entry.sizes rules.entry.ends.now rules.entry.leasts.now w.old (meant x) }
    ensures w_after { w.new ≡ kept_left rules.entry.sizes rules.entry.ends.now rules.entry.leasts.now w.old (meant x) }
{
    if at_least(x.rule, rules.sizes.rules) {
        return Err(if x.rule == STOP {
            Refusal::Malformed
        } else {
            Refusal::NoRule
        });
    }
    if other_state(rules, w, x.board, x.rule) {
        return Err(Refusal::OtherState);
    }
    with_message(rules, w, x)
}

// ---- stops
// A rule that no table has, without a message: a stop, or 21.
fn past_rules(rules: Rules, w: &mut [u64], x: Step) -> Result<(), Refusal>
    requires { (Holds rules.sizes at_rest w.old) × (Awake rules.sizes w.old (meant x)) × (paper.silent (meant x) ≡ true) × (rules.sizes.rules ≤ x.rule) }
    ensures value { code result ≡ kept_fault rules.entry.sizes rules.entry.ends.now rules.entry.leasts.now w.old (meant x) }
    ensures w_after { w.new ≡ kept_left rules.entry.sizes rules.entry.ends.now rules.entry.leasts.now w.old (meant x) }
{
    if x.rule != STOP {
        return Err(Refusal::NoRule);
    }
    if may_stop(rules.sizes, w) {
        words::stop(rules.sizes, w, x.board);
        return Ok(());
    }
    Err(Refusal::MayNotStop)
}

// May one board more be stopped?
fn may_stop(s: Sizes, w: &[u64]) -> bool
    requires { (Bounded s) × (length w.now ≡ room_of s) }
    ensures { result ≡ ((correct_count s.correct (stopped_of s w.now) + 1 + s.faulty) at_most s.tolerated) }
{
    words::stopped_count(s, w) + 1 + s.faulty as u64 <= s.tolerated as u64
}

// ---- by a rule that leaves the board's state
// The rest of a step without a message.
fn without_message(rules: Rules, w: &mut [u64], x: Step) -> Result<(), Refusal>
    requires { (Holds rules.sizes at_rest w.old) × (Leaves rules.sizes rules.ends.now w.old (meant x)) × (paper.silent (meant x) ≡ true) }
    ensures value { code result ≡ taken_fault rules.entry.sizes rules.entry.ends.now rules.entry.leasts.now w.old (meant x) }
    ensures w_after { w.new ≡ taken_left rules.entry.sizes rules.entry.ends.now rules.entry.leasts.now w.old (meant x) }
{
    if not_met(rules, w, x.board, x.rule, x.mtype) {
        return Err(Refusal::NotMet);
    }
    move_on(rules, w, x.board, x.rule);
    Ok(())
}

// The rest of a step with one: it is received before the move.
fn with_message(rules: Rules, w: &mut [u64], x: Step) -> Result<(), Refusal>
    requires { (Holds rules.sizes at_rest w.old) × (Leaves rules.sizes rules.ends.now w.old (meant x)) × (paper.silent (meant x) ≡ false) }
    ensures value { code result ≡ taken_fault rules.entry.sizes rules.entry.ends.now rules.entry.leasts.now w.old (meant x) }
    ensures w_after { w.new ≡ taken_left rules.entry.sizes rules.entry.ends.now rules.entry.leasts.now w.old (meant x) }
{
    if malformed(rules.sizes, x) {
        return Err(Refusal::Malformed);
    }
    if !words::in_transit(rules.sizes, w, x.board, x.mtype, x.source) {
        return Err(Refusal::NotInTransit);
    }
    if not_met(rules, w, x.board, x.rule, x.mtype) {
        return Err(Refusal::NotMet);
    }
    words::hear(rules.sizes, w, x.board, x.mtype, x.source);
    move_on(rules, w, x.board, x.rule);
    Ok(())
}

// ---- the refusals
// 20, 21
fn at_least(x: usize, limit: usize) -> bool
    ensures { result ≡ (x at_least limit) }
{
    limit <= x
}

// 22
pub fn other_state(rules: Rules, w: &[u64], p: usize, r: usize) -> bool
    requires { (r < 64) × (p < length w.now) }
    ensures { result ≡ (state w.now p differs kept_from rules.entry.ends.now r) }
{
    w[p] != rules.from(r) as u64
}

// The same of a number that may be no state.
pub fn other_than(rules: Rules, state: u64, r: usize) -> bool
    requires { r < 64 }
    ensures { (result ≡ (state differs kept_from rules.entry.ends.now r)) × (kept_from rules.entry.ends.now r < 256) }
{
    state != rules.from(r) as u64
}

// 23, of a step with a message
fn malformed(s: Sizes, x: Step) -> bool
    requires { Bounded s }
    ensures { result ≡ (x.mtype at_least s.types || x.source at_least (column_in s).sources) }
{
    let n = words::level::sources(s.level, s.wide, s.correct, s.faulty);
    (s.types <= x.mtype) | (n <= x.source)
}

// 25, by the counts after the receipt
pub fn not_met(rules: Rules, w: &[u64], p: usize, r: usize, m: usize) -> bool
    requires { (p < rules.sizes.correct) × (r < rules.sizes.rules) × (Holds rules.sizes in_step w.now) }
    ensures { result ≡ not (met_with rules.entry.sizes rules.entry.leasts.now w.now p r m) }
{
    for i in 0..rules.sizes.types {
        let count = words::count(rules.sizes, w, p, i) + gain(m, i);
        if count < rules.least(r, i) {
            return true;
        }
    }
    false
}

// What the message of type m adds to the count of type i.
fn gain(m: usize, i: usize) -> u64
    ensures { (result ≡ digit (eqb m i)) × (result ≤ 1) }
{
    u64::from(m == i)
}

// ---- the change
// Board p enters the state that rule r leads to, and sends the rule's type, if any.
pub fn move_on(rules: Rules, w: &mut [u64], p: usize, r: usize)
    requires { (p < rules.sizes.correct) × (r < rules.sizes.rules) × (Holds rules.sizes in_step w.old) }
    ensures { w.new ≡ moved_by rules.entry.sizes rules.entry.ends.now p r w.old }
{
    words::enter(w, p, rules.to(r) as u64);
    let m = rules.sends(r);
    if m < rules.sizes.types {
        words::tell(rules.sizes, w, p, m);
    }
}
