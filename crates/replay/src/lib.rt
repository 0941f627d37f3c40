// A service log replayed: its lines become the steps of a bundle that has none, which is written and then run.
#![tactic(auto)]

ghost use Rattle.std.specs.Prelude.{◌≡◌, ◌++◌, ◌+◌, ◌*◌, ◌≤◌, ◌<◌, length};
ghost use Rattle.fault.specs.Bytes.{trailer_bytes, step_bytes};
ghost use Rattle.bundle.specs.Bundle.{step_distance, start_distance};
ghost use Rattle.schedule.specs.Records.{bytes_of};
ghost use Rattle.service_log.specs.Lines.{log_steps};
ghost use Rattle.paper.specs.Run as runs;
ghost use Rattle.words.specs.Words.{room_of};
ghost use Rattle.rules.specs.Kept.{ByDesign};
ghost use Rattle.engine.specs.Entry.{schedule_of, start_in, ran_answer};
ghost use Rattle.replay.specs.Facts.{Blank};
ghost use Rattle.replay.specs.Made.{raised};
ghost use Rattle.replay.specs.Entry.{not_empty, made_of, replay_answer, replay_bytes, replay_words};

use fault::Answer;
use fault::refusals::Refusal;
use rules::{Room, Rules};
use words::Sizes;

// Makes a bundle of one without steps and a log, writes it to `out` and runs it in `words`: for every input and all that is lent.
pub fn replay<'a>(
    bundle: &'a [u8],
    standing: &'a [u8],
    log: &[u8],
    out: &mut [u8],
    words: &mut [u64],
) -> Answer
    ensures value { result ≡ replay_answer bundle.now standing.now log.now (length out.old) (length words.old) }
    ensures out_after { out.new ≡ replay_bytes bundle.now standing.now log.now out.old (length words.old) }
    ensures words_after { words.new ≡ replay_words bundle.now standing.now log.now (length out.old) words.old }
{
    let mut room = Room::none();
    replay_with(bundle, standing, log, &mut room, out, words)
}

// The same, with room for the rules.
fn replay_with<'a>(
    bundle: &'a [u8],
    standing: &'a [u8],
    log: &[u8],
    room: &mut Room,
    out: &mut [u8],
    words: &mut [u64],
) -> Answer
    ensures value { result ≡ replay_answer bundle.now standing.now log.now (length out.old) (length words.old) }
    ensures out_after { out.new ≡ replay_bytes bundle.now standing.now log.now out.old (length words.old) }
    ensures words_after { words.new ≡ replay_words bundle.now standing.now log.now (length out.old) words.old }
{
    if let Err(refused) = engine::open(bundle, standing, room) {
        return Answer::from(refused);
    }
    let rules = room.rules();
    if not_empty(bundle) {
        return Answer::from(Refusal::NotEmpty.at(0));
    }
    let lines = match service_log::check_lines(log) {
        Ok(lines) => lines,
        Err(wrong) => return Answer::from(wrong),
    };
    let need = bundle.len() + lines * bundle::STEP_BYTES;
    let room = words::room(rules.sizes);
    if (out.len() < need) | (words.len() < room) {
        return Answer::from(Refusal::LentShort.at(0));
    }
    replay_in(bundle, rules, log, &mut out[..need], &mut words[..room])
}

// The same for a bundle that is ready and a log that is right, into as many bytes and words as they need.
fn replay_in(bundle: &[u8], rules: Rules, log: &[u8], out: &mut [u8], w: &mut [u64]) -> Answer
    requires { (Blank rules.sizes bundle.now) × (length out.old ≡ length bundle.now + length (log_steps log.now) * step_bytes) × (length w.old ≡ room_of rules.sizes) }
    ensures by_design { ByDesign rules.entry.sizes rules.entry.ends.now rules.entry.leasts.now (λ d. result ≡ ran_answer (runs.run rules.entry.sizes.level d (start_in rules.entry.sizes (made_of bundle.now log.now)) (schedule_of (made_of bundle.now log.now)))) }
    ensures by_design_2 { ByDesign rules.entry.sizes rules.entry.ends.now rules.entry.leasts.now (λ d. w.new ≡ (runs.run rules.entry.sizes.level d (start_in rules.entry.sizes (made_of bundle.now log.now)) (schedule_of (made_of bundle.now log.now))).left) }
    ensures out_after { out.new ≡ made_of bundle.now log.now }
{
    write(bundle, log, out);
    engine::ran(engine::run_in(out, rules, w))
}

// 52
fn not_empty(bundle: &[u8]) -> bool
    requires { trailer_bytes ≤ length bundle.now }
    ensures { result ≡ not_empty bundle.now }
{
    (bundle::step_distance(bundle) != 0) | (bundle::form(bundle) != 0)
}

// The bundle with the steps of the log.
fn write(bundle: &[u8], log: &[u8], out: &mut [u8])
    requires { (trailer_bytes ≤ length bundle.now) × (step_distance bundle.now ≡ 0) × (start_distance bundle.now < 256) × (length out.old ≡ length bundle.now + length (log_steps log.now) * step_bytes) }
    ensures { out.new ≡ made_of bundle.now log.now }
{
    let at = bundle.len() - fault::TRAILER_BYTES;
    fault::copy(&bundle[..at], &mut out[..at]);
    append(bundle, log, &mut out[at..]);
}

// The steps of the log, and the trailer that says where they stand.
fn append(bundle: &[u8], log: &[u8], out: &mut [u8])
    requires { (trailer_bytes ≤ length bundle.now) × (step_distance bundle.now ≡ 0) × (start_distance bundle.now < 256) × (length out.old ≡ length (log_steps log.now) * step_bytes + trailer_bytes) }
    ensures { out.new ≡ bytes_of (log_steps log.now) ++ raised bundle.now (length (log_steps log.now) * step_bytes) }
{
    let more = out.len() - fault::TRAILER_BYTES;
    // Whether the log is right was asked before.
    let _ = service_log::take_lines(log, &mut out[..more]);
    close(bundle, more, &mut out[more..]);
}

// The trailer with both distances raised.
fn close(bundle: &[u8], more: usize, out: &mut [u8])
    requires { (trailer_bytes ≤ length bundle.now) × (length out.old ≡ trailer_bytes) × (step_distance bundle.now + more < 65536) × (start_distance bundle.now + more < 65536) }
    ensures { out.new ≡ raised bundle.now more }
{
    let steps = bundle::step_distance(bundle) + more;
    let starts = bundle::start_distance(bundle) + more;
    let at = bundle.len() - fault::TRAILER_BYTES;
    fault::copy(&bundle[at..], out);
    out[0] = fault::low(steps);
    out[1] = fault::high(steps);
    out[2] = fault::low(starts);
    out[3] = fault::high(starts);
}
