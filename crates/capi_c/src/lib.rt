// What C links: each exported name is the library's function of that name, with its promises.
#![tactic(auto)]

ghost use Rattle.std.specs.Prelude.{◌≡◌, length};
ghost use Rattle.engine.specs.Entry.{run_answer, run_words};
ghost use Rattle.counted.specs.Entry.{counted_answer};
ghost use Rattle.translate.specs.Entry.{translate_answer, translate_bytes, translate_to_answer, translate_to_bytes};
ghost use Rattle.drawing.specs.Entry.{draw_answer, draw_bytes, undraw_answer, undraw_bytes};
ghost use Rattle.editions.specs.Entry.{to_second_answer, to_second_bytes, to_first_answer, to_first_bytes};
ghost use Rattle.first_step.specs.Entry.{first_answer};
ghost use Rattle.replay.specs.Entry.{replay_answer, replay_bytes, replay_words};
ghost use Rattle.search.specs.Entry.{search_answer, search_bytes};
ghost use Rattle.lists.specs.Entry.{list_answer};
ghost use Rattle.capi.specs.Packed.{packed, capped, outcome_answer, receipts_answer, packed_first};

// Runs a bundle's schedule in the lent words: refusal, place, steps accepted.
#[unsafe(no_mangle)]
pub extern "C" fn macaroosh_run<'a>(bundle: &'a [u8], standing: &'a [u8], words: &mut [u64]) -> u64
    ensures value { result ≡ packed (run_answer bundle.now standing.now (length words.old)) }
    ensures words_after { words.new ≡ run_words bundle.now standing.now words.old }
{
    capi::macaroosh_run(bundle, standing, words)
}

// The same, with the receipts and the sends of its accepted steps: refusal, place, receipts + 65,536 · sends.
#[unsafe(no_mangle)]
pub extern "C" fn macaroosh_receipts<'a>(
    bundle: &'a [u8],
    standing: &'a [u8],
    words: &mut [u64],
) -> u64
    ensures value { result ≡ packed (receipts_answer (counted_answer bundle.now standing.now (length words.old))) }
    ensures words_after { words.new ≡ run_words bundle.now standing.now words.old }
{
    capi::macaroosh_receipts(bundle, standing, words)
}

// Writes a bundle's translation to the form that its own usually goes to into the lent bytes: refusal, place, bytes written.
#[unsafe(no_mangle)]
pub extern "C" fn macaroosh_translate<'a>(
    bundle: &'a [u8],
    standing: &'a [u8],
    out: &mut [u8],
) -> u64
    ensures value { result ≡ packed (translate_answer bundle.now standing.now (length out.old)) }
    ensures out_after { out.new ≡ translate_bytes bundle.now standing.now out.old }
{
    capi::macaroosh_translate(bundle, standing, out)
}

// The same to the form that is asked for.
#[unsafe(no_mangle)]
pub extern "C" fn macaroosh_translate_to<'a>(
    bundle: &'a [u8],
    standing: &'a [u8],
    form: u64,
    out: &mut [u8],
) -> u64
    ensures value { result ≡ packed (translate_to_answer bundle.now standing.now form (length out.old)) }
    ensures out_after { out.new ≡ translate_to_bytes bundle.now standing.now form out.old }
{
    capi::macaroosh_translate_to(bundle, standing, form, out)
}

// Writes a table's drawing into the lent bytes: refusal, place, bytes written.
#[unsafe(no_mangle)]
pub extern "C" fn macaroosh_draw(table: &[u8], out: &mut [u8]) -> u64
    ensures value { result ≡ packed (draw_answer table.now (length out.old)) }
    ensures out_after { out.new ≡ draw_bytes table.now out.old }
{
    capi::macaroosh_draw(table, out)
}

// Writes the table that a text draws into the lent bytes: refusal, place, bytes written.
#[unsafe(no_mangle)]
pub extern "C" fn macaroosh_undraw(text: &[u8], out: &mut [u8]) -> u64
    ensures value { result ≡ packed (capped (undraw_answer text.now (length out.old))) }
    ensures out_after { out.new ≡ undraw_bytes text.now out.old }
{
    capi::macaroosh_undraw(text, out)
}

// Writes a table in the second edition into the lent bytes: refusal, place, bytes written.
#[unsafe(no_mangle)]
pub extern "C" fn macaroosh_to_second(table: &[u8], out: &mut [u8]) -> u64
    ensures value { result ≡ packed (to_second_answer table.now (length out.old)) }
    ensures out_after { out.new ≡ to_second_bytes table.now out.old }
{
    capi::macaroosh_to_second(table, out)
}

// Writes a table in the first edition into the lent bytes: refusal, place, bytes written.
#[unsafe(no_mangle)]
pub extern "C" fn macaroosh_to_first(table: &[u8], out: &mut [u8]) -> u64
    ensures value { result ≡ packed (to_first_answer table.now (length out.old)) }
    ensures out_after { out.new ≡ to_first_bytes table.now out.old }
{
    capi::macaroosh_to_first(table, out)
}

// The first possible step after a bundle's schedule.
#[unsafe(no_mangle)]
pub extern "C" fn macaroosh_first_step<'a>(bundle: &'a [u8], standing: &'a [u8]) -> u64
    ensures { result ≡ packed_first (first_answer bundle.now standing.now) }
{
    capi::macaroosh_first_step(bundle, standing)
}

// Writes the bundle that a log makes of one without steps, and runs it in the lent words: refusal, place, steps accepted.
#[unsafe(no_mangle)]
pub extern "C" fn macaroosh_replay<'a>(
    bundle: &'a [u8],
    standing: &'a [u8],
    log: &[u8],
    out: &mut [u8],
    words: &mut [u64],
) -> u64
    ensures value { result ≡ packed (replay_answer bundle.now standing.now log.now (length out.old) (length words.old)) }
    ensures out_after { out.new ≡ replay_bytes bundle.now standing.now log.now out.old (length words.old) }
    ensures words_after { words.new ≡ replay_words bundle.now standing.now log.now (length out.old) words.old }
{
    capi::macaroosh_replay(bundle, standing, log, out, words)
}

// Searches for a schedule of at most `depth` steps more that puts a board in an accepting state: refusal, place, outcome. The number tried
// is stored with a refusal too, as 0.
#[unsafe(no_mangle)]
pub extern "C" fn macaroosh_search<'a>(
    bundle: &'a [u8],
    standing: &'a [u8],
    depth: u64,
    budget: u64,
    out: &mut [u8],
    tried: &mut u64,
) -> u64
    ensures value { result ≡ packed (outcome_answer (search_answer bundle.now standing.now depth budget (length out.old))) }
    ensures out_after { out.new ≡ search_bytes bundle.now standing.now depth budget out.old }
    ensures tried_after { tried.new ≡ (search_answer bundle.now standing.now depth budget (length out.old)).tried }
{
    capi::macaroosh_search(bundle, standing, depth, budget, out, tried)
}

// Checks a list of configurations for a bundle without steps: refusal, place, number of configurations.
#[unsafe(no_mangle)]
pub extern "C" fn macaroosh_check_list<'a>(
    bundle: &'a [u8],
    standing: &'a [u8],
    list: &[u64],
) -> u64
    ensures { result ≡ packed (list_answer bundle.now standing.now list.now) }
{
    capi::macaroosh_check_list(bundle, standing, list)
}
