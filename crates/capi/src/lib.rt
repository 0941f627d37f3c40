// The calls that others link: each is a thin call, its answer packed as macaroosh.h says. `capi_c` exports them to C under their names.
#![tactic(auto)]

ghost use Rattle.std.specs.Prelude.{◌≡◌, ◌≤◌, length};
ghost use Rattle.fault.specs.Tests.{◌below◌};
ghost use Rattle.fault.specs.Fault.{◌if◌else◌};
ghost use Rattle.engine.specs.Entry.{run_answer, run_words};
ghost use Rattle.counted.specs.Entry.{counted_answer};
ghost use Rattle.translate.specs.Entry.{translate_answer, translate_bytes, translate_to_answer, translate_to_bytes};
ghost use Rattle.drawing.specs.Entry.{draw_answer, draw_bytes, undraw_answer, undraw_bytes};
ghost use Rattle.editions.specs.Entry.{to_second_answer, to_second_bytes, to_first_answer, to_first_bytes};
ghost use Rattle.first_step.specs.Entry.{first_answer};
ghost use Rattle.replay.specs.Entry.{replay_answer, replay_bytes, replay_words};
ghost use Rattle.search.specs.Entry.{search_answer, search_bytes};
ghost use Rattle.lists.specs.Entry.{list_answer};
ghost use Rattle.capi.specs.Packed.{packed, capped, outcome_answer, receipts_answer, Fits, packed_first, FirstFits};

use counted::Counted;
use fault::Answer;
use first_step::First;
use search::Searched;

// Runs a bundle's schedule in the lent words: refusal, place, steps accepted.
pub fn macaroosh_run<'a>(bundle: &'a [u8], standing: &'a [u8], words: &mut [u64]) -> u64
    ensures value { result ≡ packed (run_answer bundle.now standing.now (length words.old)) }
    ensures words_after { words.new ≡ run_words bundle.now standing.now words.old }
{
    pack(engine::run(bundle, standing, words))
}

// The same, with the receipts and the sends of its accepted steps: refusal, place, receipts + 65,536 · sends.
pub fn macaroosh_receipts<'a>(bundle: &'a [u8], standing: &'a [u8], words: &mut [u64]) -> u64
    ensures value { result ≡ packed (receipts_answer (counted_answer bundle.now standing.now (length words.old))) }
    ensures words_after { words.new ≡ run_words bundle.now standing.now words.old }
{
    pack(receipts_of(counted::run(bundle, standing, words)))
}

// Both numbers as one count.
fn receipts_of(a: Counted) -> Answer
    requires { (a.receipts ≤ 16384) × (a.sends ≤ 256) }
    ensures { result ≡ receipts_answer a }
{
    Answer {
        refusal: a.answer.refusal,
        place: a.answer.place,
        count: a.receipts + 65536 * a.sends,
    }
}

// Writes a bundle's translation to the form that its own usually goes to into the lent bytes: refusal, place, bytes written.
pub fn macaroosh_translate<'a>(bundle: &'a [u8], standing: &'a [u8], out: &mut [u8]) -> u64
    ensures value { result ≡ packed (translate_answer bundle.now standing.now (length out.old)) }
    ensures out_after { out.new ≡ translate_bytes bundle.now standing.now out.old }
{
    pack(translate::translate(bundle, standing, out))
}

// The same to the form that is asked for.
pub fn macaroosh_translate_to<'a>(
    bundle: &'a [u8],
    standing: &'a [u8],
    form: u64,
    out: &mut [u8],
) -> u64
    ensures value { result ≡ packed (translate_to_answer bundle.now standing.now form (length out.old)) }
    ensures out_after { out.new ≡ translate_to_bytes bundle.now standing.now form out.old }
{
    pack(translate::translate_to(bundle, standing, form, out))
}

// Writes a table's drawing into the lent bytes: refusal, place, bytes written.
pub fn macaroosh_draw(table: &[u8], out: &mut [u8]) -> u64
    ensures value { result ≡ packed (draw_answer table.now (length out.old)) }
    ensures out_after { out.new ≡ draw_bytes table.now out.old }
{
    pack(drawing::draw(table, out))
}

// Writes the table that a text draws into the lent bytes: refusal, place, bytes written.
pub fn macaroosh_undraw(text: &[u8], out: &mut [u8]) -> u64
    ensures value { result ≡ packed (capped (undraw_answer text.now (length out.old))) }
    ensures out_after { out.new ≡ undraw_bytes text.now out.old }
{
    pack(cap(drawing::undraw(text, out)))
}

// Writes a table in the second edition into the lent bytes: refusal, place, bytes written.
pub fn macaroosh_to_second(table: &[u8], out: &mut [u8]) -> u64
    ensures value { result ≡ packed (to_second_answer table.now (length out.old)) }
    ensures out_after { out.new ≡ to_second_bytes table.now out.old }
{
    pack(editions::to_second(table, out))
}

// Writes a table in the first edition into the lent bytes: refusal, place, bytes written.
pub fn macaroosh_to_first(table: &[u8], out: &mut [u8]) -> u64
    ensures value { result ≡ packed (to_first_answer table.now (length out.old)) }
    ensures out_after { out.new ≡ to_first_bytes table.now out.old }
{
    pack(editions::to_first(table, out))
}

// The first possible step after a bundle's schedule.
pub fn macaroosh_first_step<'a>(bundle: &'a [u8], standing: &'a [u8]) -> u64
    ensures { result ≡ packed_first (first_answer bundle.now standing.now) }
{
    pack_first(first_step::first_step(bundle, standing))
}

// Writes the bundle that a log makes of one without steps, and runs it in the lent words: refusal, place, steps accepted.
pub fn macaroosh_replay<'a>(
    bundle: &'a [u8],
    standing: &'a [u8],
    log: &[u8],
    out: &mut [u8],
    words: &mut [u64],
) -> u64
    ensures value { result ≡ packed (replay_answer bundle.now standing.now log.now (length out.old) (length words.old)) }
    ensures out_after { out.new ≡ replay_bytes bundle.now standing.now log.now out.old (length words.old) }
    ensures words_after { words.new ≡ replay_words bundle.now standing.now log.now (length out.old) words.old }
{
    pack(replay::replay(bundle, standing, log, out, words))
}

// Searches for a schedule of at most `depth` steps more that puts a board in an accepting state: refusal, place, outcome. The number tried
// is stored with a refusal too, as 0.
pub fn macaroosh_search<'a>(
    bundle: &'a [u8],
    standing: &'a [u8],
    depth: u64,
    budget: u64,
    out: &mut [u8],
    tried: &mut u64,
) -> u64
    ensures value { result ≡ packed (outcome_answer (search_answer bundle.now standing.now depth budget (length out.old))) }
    ensures out_after { out.new ≡ search_bytes bundle.now standing.now depth budget out.old }
    ensures tried_after { tried.new ≡ (search_answer bundle.now standing.now depth budget (length out.old)).tried }
{
    let a = search::search(bundle, standing, depth, budget, out);
    *tried = a.tried;
    pack(outcome_of(a))
}

// Checks a list of configurations for a bundle without steps: refusal, place, number of configurations.
pub fn macaroosh_check_list<'a>(bundle: &'a [u8], standing: &'a [u8], list: &[u64]) -> u64
    ensures { result ≡ packed (list_answer bundle.now standing.now list.now) }
{
    pack(lists::check_list(bundle, standing, list))
}

// A search's answer with its outcome as the count.
fn outcome_of(a: Searched) -> Answer
    ensures { result ≡ outcome_answer a }
{
    Answer {
        refusal: a.refusal as u64,
        place: a.place as u64,
        count: a.outcome as u64,
    }
}

// A text may have places that take more than 24 bits.
fn cap(a: Answer) -> Answer
    ensures { result ≡ capped a }
{
    Answer {
        refusal: a.refusal,
        place: short(a.place),
        count: a.count,
    }
}

// The place, or the largest of 24 bits.
fn short(place: u64) -> u64
    ensures { result ≡ (place if place below 16777216 else 16777215) }
{
    if place < 16777216 {
        return place;
    }
    16777215
}

// An answer in one number: the refusal lowest, the place from bit 8, the count from bit 32.
fn pack(a: Answer) -> u64
    requires { Fits a }
    ensures { result ≡ packed a }
{
    a.refusal + 256 * a.place + 4294967296 * a.count
}

// The first step in one number; 0 where none is possible.
fn pack_first(f: First) -> u64
    requires { FirstFits f }
    ensures { result ≡ packed_first f }
{
    match f {
        First::Refused { number, place } => pack_refused(number as u64, place as u64),
        First::Nothing => 0,
        First::Step {
            board,
            rule,
            mtype,
            source,
        } => pack_step(board as u64, rule as u64, mtype as u64, source as u64),
    }
}

// A refusal in one number: its place from bit 8.
fn pack_refused(number: u64, place: u64) -> u64
    requires { FirstFits (First.Refused number place) }
    ensures { result ≡ packed_first (First.Refused number place) }
{
    number + 256 * place
}

// A step in one number: bit 24, and a byte for each of its numbers from bit 32.
fn pack_step(board: u64, rule: u64, mtype: u64, source: u64) -> u64
    requires { FirstFits (First.Step board rule mtype source) }
    ensures { result ≡ packed_first (First.Step board rule mtype source) }
{
    16777216 + 4294967296 * (board + 256 * rule + 65536 * mtype + 16777216 * source)
}
