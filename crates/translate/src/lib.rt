// Translation: a bundle with its schedule in another form, for every bundle, standing table, form and lent slice.
#![tactic(auto)]

ghost use Rattle.std.specs.Prelude.{◌≡◌, ◌&&◌, map, suc, ◌+◌, ◌-◌, ◌*◌, ◌≤◌, ◌<◌, eqb, length, set};
ghost use Rattle.senders.specs.Tally.{least};
ghost use Rattle.fault.specs.Bytes.{most_steps};
ghost use Rattle.fault.specs.Refusals.{answer_of};
ghost use Rattle.bundle.specs.Bundle.{steps_of, most_form, most_level};
ghost use Rattle.paper.specs.Paper.{passing, column};
ghost use Rattle.paper.specs.Step.{heard, stepped};
ghost use Rattle.agree.specs.Translation.{tag_of, tag_by, low_sender, coarser};
ghost use Rattle.schedule.specs.Records.{meant, record_at, steps_in, bytes_of, Records};
ghost use Rattle.words.specs.Facts.{at_rest, in_step, Bounded, Holds, At, Grown};
ghost use Rattle.rules.specs.Kept.{ByEnds};
ghost use Rattle.step.specs.Step.{sized, Formed};
ghost use Rattle.engine.specs.Entry.{start_in};
ghost use Rattle.engine.specs.Open.{Parts};
ghost use Rattle.translate.specs.Facts.{at_level, low_in, Fair, Runs, MovesTo, RefinesTo, WritesTo, Answers, RunsLow, LowersTo, Acceptable};
ghost use Rattle.translate.specs.Entry.{translate_to_answer, translate_to_bytes, usual, translate_answer, translate_bytes};

use fault::Answer;
use fault::refusals::{Refusal, Refused};
use rules::{Room, Rules};
use schedule::Step;
use words::Sizes;

// Writes the bundle in the form that its own usually goes to: 0 to 1, 1 to 0, 2 to 1.
pub fn translate<'a>(bundle: &'a [u8], standing: &'a [u8], out: &mut [u8]) -> Answer
    ensures value { result ≡ translate_answer bundle.now standing.now (length out.old) }
    ensures out_after { out.new ≡ translate_bytes bundle.now standing.now out.old }
{
    translate_to(bundle, standing, usual_form(bundle), out)
}

// The form that the bundle's own usually goes to, also of bytes that are no bundle.
fn usual_form(bundle: &[u8]) -> u64
    ensures { result ≡ usual bundle.now }
{
    if bundle.len() < fault::TRAILER_BYTES {
        return 1;
    }
    if bundle::form(bundle) == 1 { 0 } else { 1 }
}

// Writes the bundle in the form that is asked for, or refuses as running does; 30 measures bytes.
pub fn translate_to<'a>(bundle: &'a [u8], standing: &'a [u8], form: u64, out: &mut [u8]) -> Answer
    ensures value { result ≡ translate_to_answer bundle.now standing.now form (length out.old) }
    ensures out_after { out.new ≡ translate_to_bytes bundle.now standing.now form out.old }
{
    Answer::from(translated(bundle, standing, form, out))
}

// How many bytes are written, or what is refused.
fn translated<'a>(
    bundle: &'a [u8],
    standing: &'a [u8],
    form: u64,
    out: &mut [u8],
) -> Result<usize, Refused>
    ensures value { answer_of result ≡ translate_to_answer bundle.now standing.now form (length out.old) }
    ensures out_after { out.new ≡ translate_to_bytes bundle.now standing.now form out.old }
{
    let mut room = Room::none();
    engine::open(bundle, standing, &mut room)?;
    let rules = room.rules();
    if (form == bundle::form(bundle) as u64) | ((bundle::MOST_FORM as u64) < form) {
        return Err(Refusal::OtherForm.at(0));
    }
    let need = bundle.len();
    if out.len() < need {
        return Err(Refusal::LentShort.at(0));
    }
    translate_in(bundle, rules, form as usize, &mut out[..need])
}

// The same for a bundle that is ready, into as many bytes as it has. Its own form decides, before a byte is written.
fn translate_in(bundle: &[u8], rules: Rules, form: usize, out: &mut [u8]) -> Result<usize, Refused>
    requires { (Parts rules.sizes bundle.now) × (Fair rules.sizes rules.ends.now rules.leasts.now bundle.now) × (form ≤ most_form) × (length out.old ≡ length bundle.now) }
    ensures { Answers rules.entry.sizes rules.entry.ends.now rules.entry.leasts.now bundle.now form out.old (answer_of result) out.new }
{
    let mut words = [0u64; words::MOST];
    let need = words::room(rules.sizes);
    engine::run_in(bundle, rules, &mut words[..need])?;
    write(bundle, rules, form, &mut words, out);
    Ok(bundle.len())
}

// The bundle that runs, with its steps in the form that is asked for, and that form as its last byte.
// Stays: the words that it ran in are lent on down to `write_sources`; a second array would be 4,648 bytes more of stack.
fn write(bundle: &[u8], rules: Rules, form: usize, words: &mut [u64; words::MOST], out: &mut [u8])
    requires { (Parts rules.sizes bundle.now) × (Runs rules.sizes rules.ends.now bundle.now) × (form ≤ most_form) × (length out.old ≡ length bundle.now) }
    ensures { WritesTo rules.entry.sizes rules.entry.ends.now bundle.now form out.new }
{
    fault::copy(bundle, out);
    let at = bundle::steps_at(bundle);
    let end = bundle.len() - fault::TRAILER_BYTES;
    write_steps(bundle, rules, form, words, &mut out[at..end]);
    let last = bundle.len() - 1;
    out[last] = form as u8;
}

// The bundle's steps at the level that is asked for, in place of its own.
fn write_steps(
    bundle: &[u8],
    rules: Rules,
    level: usize,
    words: &mut [u64; words::MOST],
    steps: &mut [u8],
)
    requires { (Parts rules.sizes bundle.now) × (Runs rules.sizes rules.ends.now bundle.now) × (level ≤ most_level) × (steps.old ≡ steps_of bundle.now) }
    ensures { MovesTo rules.entry.sizes rules.entry.ends.now bundle.now level steps.new }
{
    if level < rules.sizes.level {
        refine(bundle, rules, level, words, steps);
    } else {
        coarsen(rules.sizes.level, level, rules.sizes.correct, steps);
    }
}

// ---- to a coarser level
// From level k, one level after the other, up to the one that is asked for.
// Stays: the level goes up at each turn, so that a struct of it and c would be made anew each time, no plainer than two numbers.
fn coarsen(k: usize, level: usize, c: usize, steps: &mut [u8])
    requires { (k ≤ level) × (level ≤ most_level) × (Records steps.old) }
    ensures { steps.new ≡ bytes_of (coarser (level - k) k c (steps_in steps.old)) }
{
    for j in k..level {
        write_tags(j, c, steps);
    }
}

// Each source of level j becomes its tag.
fn write_tags(j: usize, c: usize, steps: &mut [u8])
    requires { Records steps.old }
    ensures { steps.new ≡ bytes_of (map (tag_by j c) (steps_in steps.old)) }
{
    let total = steps.len() / 4;
    for i in 0..total {
        tag_at(j, c, steps, i);
    }
}

// The source of record i becomes its tag.
fn tag_at(j: usize, c: usize, steps: &mut [u8], i: usize)
    requires { (i < most_steps) × (i * 4 + 3 < length steps.old) }
    ensures { steps.new ≡ set steps.old (i * 4 + 3) (tag_by j c (record_at steps.old i)).source }
{
    let q = tag(j, c, schedule::step_at(steps, i));
    schedule::set_source(steps, i, q);
}

// The source of a step one level on: its tag, or 255 where there is no message.
// Stays: a tag is written as the source of the record, where it is a number, as senders are.
fn tag(j: usize, c: usize, x: Step) -> usize
    requires { x.source < 256 }
    ensures { (result ≡ (tag_by j c (meant x)).source) × (result < 256) }
{
    if schedule::silent(x) {
        return x.source;
    }
    if j != 0 {
        return 0;
    }
    if x.source < c { 0 } else { 1 }
}

// ---- to a finer level
// From the bundle's own level, one level after the other, down to the one that is asked for: the same rules, at each level's sizes.
fn refine(
    bundle: &[u8],
    rules: Rules,
    level: usize,
    words: &mut [u64; words::MOST],
    steps: &mut [u8],
)
    requires { (Parts rules.sizes bundle.now) × (Runs rules.sizes rules.ends.now bundle.now) × (level ≤ rules.sizes.level) × (steps.old ≡ steps_of bundle.now) }
    ensures { RefinesTo rules.entry.sizes rules.entry.ends.now bundle.now level steps.new }
{
    for j in (level..rules.sizes.level).rev() {
        let same_rules = Rules {
            sizes: at_level(rules.sizes, j),
            ends: rules.ends,
            leasts: rules.leasts,
        };
        write_sources(bundle, same_rules, words, steps);
    }
}

// The same numbers at level k.
fn at_level(s: Sizes, k: usize) -> Sizes
    requires { s.types ≤ 4 }
    ensures { result ≡ at_level k s }
{
    let wide = words::level::wide(k);
    Sizes {
        level: k,
        wide,
        row: s.types * wide,
        ..s
    }
}

// Each tag becomes the lowest of its sources that is in transit, along the run at their level from the bundle's starts.
fn write_sources(bundle: &[u8], rules: Rules, words: &mut [u64; words::MOST], steps: &mut [u8])
    requires { (Parts rules.sizes bundle.now) × (Records steps.old) × (RunsLow rules.sizes rules.ends.now (start_in rules.sizes bundle.now) steps.old) }
    ensures { LowersTo rules.entry.sizes rules.entry.ends.now (start_in rules.entry.sizes bundle.now) steps.old steps.new }
{
    let need = words::room(rules.sizes);
    let w = &mut words[..need];
    engine::begin(bundle::starts(bundle), rules.sizes, w);
    write_along(rules, w, steps);
}

// The same, along the run from the words.
fn write_along(rules: Rules, w: &mut [u64], steps: &mut [u8])
    requires { (Holds rules.sizes 256 w.old) × (Records steps.old) × (RunsLow rules.sizes rules.ends.now w.old steps.old) }
    ensures { LowersTo rules.entry.sizes rules.entry.ends.now w.old steps.old steps.new }
{
    let total = steps.len() / 4;
    for i in 0..total {
        source_at(rules, w, steps, i);
    }
}

// The tag of record i becomes its source, and the step is taken. A stop has no message, so that its record stays.
fn source_at(rules: Rules, w: &mut [u64], steps: &mut [u8], i: usize)
    requires { (Holds rules.sizes at_rest w.old) × (i < most_steps) × (i * 4 + 3 < length steps.old) × (Acceptable rules.sizes (low_in rules.sizes w.old (record_at steps.old i))) }
    ensures by_ends { ByEnds rules.entry.sizes rules.entry.ends.now (λ d. w.new ≡ stepped rules.entry.sizes.level d w.old (low_in rules.entry.sizes w.old (record_at steps.old i))) }
    ensures grown { Grown rules.entry.sizes w.old w.new }
    ensures steps_after { steps.new ≡ set steps.old (i * 4 + 3) (low_in rules.entry.sizes w.old (record_at steps.old i)).source }
{
    let x = schedule::step_at(steps, i);
    if x.rule == step::STOP {
        words::stop(rules.sizes, w, x.board);
        return;
    }
    hear_lowest(rules.sizes, w, steps, i, x);
    step::move_on(rules, w, x.board, x.rule);
}

// A message of the step's tag is received from its lowest sender in transit, whom record i then names.
fn hear_lowest(s: Sizes, w: &mut [u64], steps: &mut [u8], i: usize, x: Step)
    requires { (Bounded s) × (Holds s in_step w.old) × (i < most_steps) × (i * 4 + 3 < length steps.old) × (meant x ≡ record_at steps.old i) × (Formed s (low_in s w.old (meant x))) }
    ensures w_after { w.new ≡ heard s.level (sized s) w.old (low_in s w.old (meant x)) }
    ensures steps_after { steps.new ≡ set steps.old (i * 4 + 3) (low_in s w.old (meant x)).source }
{
    if schedule::silent(x) {
        return;
    }
    let q = source(s, w, x);
    words::hear(s, w, x.board, x.mtype, q);
    schedule::set_source(steps, i, q);
}

// The source of a step with a message: the lowest of its tag that is in transit.
fn source(s: Sizes, w: &[u64], x: Step) -> usize
    requires { (Bounded s) × (Holds s in_step w.now) × (At s x.board x.mtype) × (x.source < (column (suc s.level) s.correct s.faulty).sources) }
    ensures { (result ≡ low_sender s.level (sized s) w.now (meant x)) × (result < 256) }
{
    if s.level != 0 {
        return words::first_source(s, w, x.board, x.mtype);
    }
    let i = words::cell_at(s, x.board, x.mtype);
    let j = words::sent_at(s, x.mtype);
    lowest_of(s.correct, s.faulty, x.source, w[i], w[j])
}

// The lowest sender of the tag that is in transit, by the set that was received and the set that was sent.
fn lowest_of(c: usize, f: usize, tag: usize, got: u64, out: u64) -> usize
    requires { (c + f ≤ 64) × (tag < 2) }
    ensures { (result ≡ least (c + f) (λ q. eqb (tag_of 0 c q) tag && (passing c f).in_transit q got out)) × (result ≤ 64) }
{
    let n = c + f;
    if tag == 0 {
        return senders::lowest_correct(out, got, c as u64, n as u64) as usize;
    }
    senders::lowest_faulty(got, c as u64, n as u64) as usize
}
