// A bundle's run: the one beginning of a call, the first configuration, and the steps one after the other, in lent words.
#![tactic(auto)]

ghost use Rattle.std.specs.Prelude.{◌≡◌, ◌++◌, ◌+◌, ◌/◌, ◌≤◌, ◌<◌, length, drop, replicate};
ghost use Rattle.fault.specs.Refusals.{told};
ghost use Rattle.paper.specs.Words.{start};
ghost use Rattle.paper.specs.Form as forms;
ghost use Rattle.schedule.specs.Records.{steps_in, Records};
ghost use Rattle.paper.specs.Run as runs;
ghost use Rattle.words.specs.Words.{room_of};
ghost use Rattle.words.specs.Facts.{at_end, Holds};
ghost use Rattle.rules.specs.Kept.{ByDesign};
ghost use Rattle.engine.specs.Design.{sizes_of};
ghost use Rattle.engine.specs.Entry.{schedule_of, start_in, ran, ran_answer, run_answer, run_words};
ghost use Rattle.engine.specs.Open.{Opens, Parts};

use fault::Answer;
use fault::refusals::{Refusal, Refused};
use rules::{Room, Rules};
use words::Sizes;

// Runs a bundle's schedule in the lent words, for every bundle, standing table and lent slice.
pub fn run<'a>(bundle: &'a [u8], standing: &'a [u8], lent: &mut [u64]) -> Answer
    ensures value { result ≡ run_answer bundle.now standing.now (length lent.old) }
    ensures lent_after { lent.new ≡ run_words bundle.now standing.now lent.old }
{
    let mut room = Room::none();
    run_with(bundle, standing, &mut room, lent)
}

// The same, with room for the rules.
fn run_with<'a>(bundle: &'a [u8], standing: &'a [u8], room: &mut Room, lent: &mut [u64]) -> Answer
    ensures value { result ≡ run_answer bundle.now standing.now (length lent.old) }
    ensures lent_after { lent.new ≡ run_words bundle.now standing.now lent.old }
{
    if let Err(refused) = open(bundle, standing, room) {
        return Answer::from(refused);
    }
    let rules = room.rules();
    let need = words::room(rules.sizes);
    if lent.len() < need {
        return Answer::from(Refusal::LentShort.at(0));
    }
    ran(run_in(bundle, rules, &mut lent[..need]))
}

// ---- the beginning of every call
// Reads a bundle beside a standing table, and makes its rules ready.
pub fn open<'a>(bundle: &'a [u8], standing: &'a [u8], room: &mut Room) -> Result<(), Refused>
    ensures { Opens bundle.now standing.now (told result) room.new.sizes room.new.ends room.new.leasts }
{
    bundle::read_fault(bundle, standing)?;
    let table = bundle::table_in_use(bundle, standing);
    room.keep(table, bundle::t(bundle), sizes_of(table, bundle));
    Ok(())
}

// The numbers of a bundle and its table.
fn sizes_of(table: &[u8], bundle: &[u8]) -> Sizes
    requires { (8 ≤ length table.now) × (8 ≤ length bundle.now) }
    ensures { result ≡ sizes_of table.now bundle.now }
{
    let level = bundle::level(bundle);
    let types = table::types(table);
    let wide = words::level::wide(level);
    Sizes {
        level,
        correct: bundle::correct(bundle),
        faulty: bundle::f(bundle),
        types,
        rules: table::rules(table),
        wide,
        row: fault::times(types, wide),
        tolerated: bundle::t(bundle),
    }
}

// ---- the run
// The schedule of a bundle, from its starts, in words of the right number: for every design that the kept rules stand for.
pub fn run_in(bundle: &[u8], rules: Rules, w: &mut [u64]) -> Result<usize, Refused>
    requires { (Parts rules.sizes bundle.now) × (length w.old ≡ room_of rules.sizes) }
    ensures by_design { ByDesign rules.entry.sizes rules.entry.ends.now rules.entry.leasts.now (λ d. ran result ≡ ran_answer (runs.run rules.entry.sizes.level d (start_in rules.entry.sizes bundle.now) (schedule_of bundle.now))) }
    ensures by_design_2 { ByDesign rules.entry.sizes rules.entry.ends.now rules.entry.leasts.now (λ d. w.new ≡ (runs.run rules.entry.sizes.level d (start_in rules.entry.sizes bundle.now) (schedule_of bundle.now)).left) }
    ensures holds { Holds rules.entry.sizes at_end w.new }
{
    begin(bundle::starts(bundle), rules.sizes, w);
    run_steps(rules, bundle::steps(bundle), w)
}

// The first configuration.
pub fn begin(starts: &[u8], s: Sizes, w: &mut [u64])
    requires { (length starts.now ≡ s.correct) × (length w.old ≡ room_of s) }
    ensures w_after { w.new ≡ start s.types (forms.wide s.level) starts.now }
    ensures holds { Holds s 256 w.new }
{
    clear(w);
    place(starts, w);
}

// All words 0.
fn clear(w: &mut [u64])
    ensures { w.new ≡ replicate (length w.old) 0 }
{
    w.fill(0);
}

// Each board's start state in its place.
fn place(starts: &[u8], w: &mut [u64])
    requires { length starts.now ≤ length w.old }
    ensures { w.new ≡ starts.now ++ drop (length starts.now) w.old }
{
    for (i, start) in starts.iter().enumerate() {
        w[i] = u64::from(*start);
    }
}

// The steps one after the other, up to the first that is refused.
fn run_steps(rules: Rules, steps: &[u8], w: &mut [u64]) -> Result<usize, Refused>
    requires { (Holds rules.sizes 256 w.old) × (Records steps.now) }
    ensures by_design { ByDesign rules.entry.sizes rules.entry.ends.now rules.entry.leasts.now (λ d. ran result ≡ ran_answer (runs.run rules.entry.sizes.level d w.old (steps_in steps.now))) }
    ensures by_design_2 { ByDesign rules.entry.sizes rules.entry.ends.now rules.entry.leasts.now (λ d. w.new ≡ (runs.run rules.entry.sizes.level d w.old (steps_in steps.now)).left) }
    ensures holds { Holds rules.entry.sizes at_end w.new }
{
    let total = steps.len() / 4;
    for i in 0..total {
        if let Err(refusal) = step::step(rules, w, schedule::step_at(steps, i)) {
            return Err(refusal.at(i));
        }
    }
    Ok(total)
}

// The answer of a run: a refused step's place is the number of steps before it, and these are counted.
pub fn ran(steps: Result<usize, Refused>) -> Answer
    ensures { result ≡ ran steps }
{
    match steps {
        Ok(count) => fault::answered(0, 0, count),
        Err(refused) => fault::answered(refused.refusal.number(), refused.place, refused.place),
    }
}
