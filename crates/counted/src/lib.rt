// A run, with how many of its accepted steps receive a message and how many send a new type. Both are read off the words that the run
// leaves, so that no step takes longer.
#![tactic(auto)]

ghost use Rattle.std.specs.Prelude.{◌≡◌, ℕ, ◌*◌, ◌≤◌, ◌<◌, length};
ghost use Rattle.words.specs.Words.{room_of};
ghost use Rattle.words.specs.Facts.{at_end, Bounded, Holds};
ghost use Rattle.rules.specs.Kept.{ByDesign};
ghost use Rattle.paper.specs.Run as runs;
ghost use Rattle.receipts.specs.Receipts.{sum_below};
ghost use Rattle.engine.specs.Entry.{schedule_of, start_in, ran_answer, run_words};
ghost use Rattle.engine.specs.Open.{Parts};
ghost use Rattle.counted.specs.Entry.{counted_answer};
ghost use Rattle.counted.specs.Sums.{board_in, received_in, sent_in};

use fault::Answer;
use fault::refusals::Refusal;
use rules::{Room, Rules};
use words::Sizes;

// The run's answer, and the two numbers.
#[derive(Clone, Copy)]
pub struct Counted {
    pub answer: Answer,
    pub receipts: u64,
    pub sends: u64,
}

// Runs a bundle's schedule in the lent words, for every bundle, standing table and lent slice.
pub fn run<'a>(bundle: &'a [u8], standing: &'a [u8], lent: &mut [u64]) -> Counted
    ensures value { result ≡ counted_answer bundle.now standing.now (length lent.old) }
    ensures lent_after { lent.new ≡ run_words bundle.now standing.now lent.old }
{
    let mut room = Room::none();
    run_with(bundle, standing, &mut room, lent)
}

// The same, with room for the rules.
fn run_with<'a>(bundle: &'a [u8], standing: &'a [u8], room: &mut Room, lent: &mut [u64]) -> Counted
    ensures value { result ≡ counted_answer bundle.now standing.now (length lent.old) }
    ensures lent_after { lent.new ≡ run_words bundle.now standing.now lent.old }
{
    if let Err(refused) = engine::open(bundle, standing, room) {
        return told(Answer::from(refused), 0, 0);
    }
    let rules = room.rules();
    let need = words::room(rules.sizes);
    if lent.len() < need {
        return told(Answer::from(Refusal::LentShort.at(0)), 0, 0);
    }
    count_in(bundle, rules, &mut lent[..need])
}

// The schedule of a bundle, run in words of the right number, and counted there.
fn count_in(bundle: &[u8], rules: Rules, w: &mut [u64]) -> Counted
    requires { (Parts rules.sizes bundle.now) × (length w.old ≡ room_of rules.sizes) }
    ensures by_design { ByDesign rules.entry.sizes rules.entry.ends.now rules.entry.leasts.now (λ d. result.answer ≡ ran_answer (runs.run rules.entry.sizes.level d (start_in rules.entry.sizes bundle.now) (schedule_of bundle.now))) }
    ensures by_design_2 { ByDesign rules.entry.sizes rules.entry.ends.now rules.entry.leasts.now (λ d. w.new ≡ (runs.run rules.entry.sizes.level d (start_in rules.entry.sizes bundle.now) (schedule_of bundle.now)).left) }
    ensures receipts_value { (result.receipts ≡ received_in rules.entry.sizes w.new) × (result.sends ≡ sent_in rules.entry.sizes w.new) }
{
    let answer = engine::ran(engine::run_in(bundle, rules, w));
    told(answer, received(rules.sizes, w), sent(rules.sizes, w))
}

fn told(answer: Answer, receipts: u64, sends: u64) -> Counted
    ensures { result ≡ record { answer = answer; receipts = receipts; sends = sends } }
{
    Counted {
        answer,
        receipts,
        sends,
    }
}

// All messages that the boards have received.
fn received(s: Sizes, w: &[u64]) -> u64
    requires { (Bounded s) × (Holds s at_end w.now) }
    ensures { result ≡ received_in s w.now }
{
    sum_of(s.correct, |p| of_board(s, w, p))
}

// Those of board p.
fn of_board(s: Sizes, w: &[u64], p: usize) -> u64
    requires { (Bounded s) × (Holds s at_end w.now) × (p < s.correct) }
    ensures { (result ≡ board_in s w.now p) × (result ≤ 8000000) }
{
    sum_of(s.types, |m| words::count(s, w, p, m))
}

// All that were sent.
fn sent(s: Sizes, w: &[u64]) -> u64
    requires { (Bounded s) × (Holds s at_end w.now) }
    ensures { result ≡ sent_in s w.now }
{
    sum_of(s.types, |m| words::sent_in(s, w, m))
}

// The sum of what a function answers for each number below n.
fn sum_of<F: Fn(usize) -> u64>(n: usize, f: F) -> u64
    requires few { n ≤ 64 }
    requires callable { (i : ℕ) → i < n → F.pre f i }
    requires small { (i : ℕ) (x : ℕ) → i < n → F.post f i x → x ≤ 8000000 }
    ensures value { (g : ℕ → ℕ) → ((i : ℕ) (x : ℕ) → i < n → F.post f i x → x ≡ g i) → result ≡ sum_below n g }
    ensures within { (most : ℕ) → ((i : ℕ) (x : ℕ) → i < n → F.post f i x → x ≤ most) → result ≤ n * most }
{
    let mut sum = 0;
    for i in 0..n {
        sum += f(i);
    }
    sum
}
