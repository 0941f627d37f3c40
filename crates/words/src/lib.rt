// The words of a configuration: where a cell and a sent word stand, what they show, and the changes that a step makes.
#![tactic(auto)]

ghost use Rattle.std.specs.Prelude.{◌≡◌, ℕ, ◌+◌, ◌≤◌, ◌<◌, length, set};
ghost use Rattle.senders.specs.Tally.{least};
ghost use Rattle.senders.specs.Set.{mem, correct_count};
ghost use Rattle.paper.specs.Words.{cell_at, sent_at, stopped_at};
ghost use Rattle.paper.specs.Words as words;
ghost use Rattle.paper.specs.Form as forms;
ghost use Rattle.words.specs.Words.{room_of, column_in, held_in, got_in, stopped_of, awake_state, count_in, correct_in, faulty_in, sent_count_in, transit_in};
ghost use Rattle.words.specs.Facts.{in_step, most_words, Bounded, Holds, At, Sourced};

pub mod level; // what the words of a cell come to, by the level's number

use level::Cell;

// The numbers that stepping goes by; rules are counted here so that a step has them beside the others.
// Stays: no invariant in place of the clause `Bounded`, since the definition `sizes_of` makes these numbers of any bytes, read or not.
#[derive(Clone, Copy)]
pub struct Sizes {
    // 0 message, 1 counting, 2 plain.
    // Stays: a translation goes from level to level by j + 1 and j - 1, and the laws of `column` go by induction on that number.
    pub level: usize,
    pub correct: usize,
    pub faulty: usize,
    pub types: usize,
    pub rules: usize,
    // words of a cell, and of all cells of a board
    pub wide: usize,
    pub row: usize,
    // how many boards may be faulty or stopped
    pub tolerated: usize,
}

// The numbers where nothing is.
pub fn none() -> Sizes
    ensures bounded { Bounded result }
    ensures empty { result.rules ≡ 0 }
{
    Sizes {
        level: 0,
        correct: 0,
        faulty: 0,
        types: 0,
        rules: 0,
        wide: 1,
        row: 0,
        tolerated: 0,
    }
}

// The most words that a configuration has: 64 states, 64 · 4 cells of two words, 4 sent, the stopped boards.
pub const MOST: usize = 581;

// How many words a configuration has.
pub fn room(s: Sizes) -> usize
    requires { Bounded s }
    ensures { (result ≡ room_of s) × (result ≤ most_words) }
{
    stopped_at(s) + 1
}

// Where the set of stopped boards stands, after the sent words.
pub fn stopped_at(s: Sizes) -> usize
    requires { Bounded s }
    ensures { (result ≡ stopped_at s.correct s.types (forms.wide s.level)) × (result + 1 ≡ room_of s) × (result ≤ 580) }
{
    sent_at(s, s.types)
}

// Where the sent word of type m stands.
pub fn sent_at(s: Sizes, m: usize) -> usize
    requires { (Bounded s) × (m ≤ s.types) }
    ensures { (result ≡ sent_at s.correct s.types (forms.wide s.level) m) × (result ≤ 576 + m) }
{
    s.correct + s.correct * s.row + m
}

// Where the cell of board p for type m begins.
pub fn cell_at(s: Sizes, p: usize, m: usize) -> usize
    requires { (Bounded s) × (At s p m) }
    ensures { (result ≡ cell_at s.correct s.types (forms.wide s.level) p m 0) × (result + forms.wide s.level < room_of s) × (result ≤ 576) }
{
    s.correct + p * s.row + m * s.wide
}

// The last word of the cell that begins at i, which is the first where a cell has one.
fn last_of(s: Sizes, i: usize) -> usize
    requires { (Bounded s) × (i ≤ 576) }
    ensures { (result ≡ i + forms.slot s.level 1) × (i ≤ result) × (result < i + forms.wide s.level) × (result ≤ 577) }
{
    i + (s.wide - 1)
}

// What board p has received of type m.
fn cell_in(s: Sizes, w: &[u64], p: usize, m: usize) -> Cell
    requires { (Bounded s) × (At s p m) × (length w.now ≡ room_of s) }
    ensures shows { held_in s result ≡ got_in s w.now p m }
    ensures small { (k : ℕ) → Holds s k w.now → (s.level ≡ 0 → ⊥) → (result.first ≤ k) × (result.last ≤ k) }
{
    let i = cell_at(s, p, m);
    let j = last_of(s, i);
    Cell {
        first: w[i],
        last: w[j],
    }
}

// How many messages of type m board p has received.
pub fn count(s: Sizes, w: &[u64], p: usize, m: usize) -> u64
    requires { (Bounded s) × (At s p m) × (Holds s in_step w.now) }
    ensures { (result ≡ count_in s w.now p m) × (result ≤ 2000000) }
{
    cell_in(s, w, p, m).card(s)
}

// How many of them are from correct boards; where one count has them all, how many there are.
pub fn correct_in(s: Sizes, w: &[u64], p: usize, m: usize) -> u64
    requires { (Bounded s) × (At s p m) × (length w.now ≡ room_of s) }
    ensures { result ≡ correct_in s w.now p m }
{
    cell_in(s, w, p, m).from_correct(s)
}

// And how many from faulty ones, where that is told.
pub fn faulty_in(s: Sizes, w: &[u64], p: usize, m: usize) -> u64
    requires { (Bounded s) × (At s p m) × (length w.now ≡ room_of s) }
    ensures { result ≡ faulty_in s w.now p m }
{
    cell_in(s, w, p, m).from_faulty(s)
}

// How many boards have sent type m.
pub fn sent_in(s: Sizes, w: &[u64], m: usize) -> u64
    requires { (Bounded s) × (m < s.types) × (length w.now ≡ room_of s) }
    ensures { result ≡ sent_count_in s w.now m }
{
    let first = w[sent_at(s, m)];
    Cell { first, last: 0 }.from_correct(s)
}

// The state of board p.
pub fn state_in(s: Sizes, w: &[u64], p: usize) -> u64
    requires { (Bounded s) × (p < s.correct) × (length w.now ≡ room_of s) }
    ensures { result ≡ words.state w.now p }
{
    w[p]
}

// Is the message of type m from q in transit to board p?
pub fn in_transit(s: Sizes, w: &[u64], p: usize, m: usize, q: usize) -> bool
    requires { (Bounded s) × (At s p m) × (Sourced s q) × (Holds s in_step w.now) }
    ensures { result ≡ transit_in s w.now p m q }
{
    let k = sent_at(s, m);
    cell_in(s, w, p, m).in_transit(s, q, w[k])
}

// The set of stopped boards.
pub fn stopped_in(s: Sizes, w: &[u64]) -> u64
    requires { (Bounded s) × (length w.now ≡ room_of s) }
    ensures { result ≡ stopped_of s w.now }
{
    let i = stopped_at(s);
    w[i]
}

// Is board p stopped?
pub fn is_stopped(s: Sizes, w: &[u64], p: usize) -> bool
    requires { (Bounded s) × (p < s.correct) × (length w.now ≡ room_of s) }
    ensures { result ≡ mem (stopped_of s w.now) p }
{
    senders::has(stopped_in(s, w), p as u64)
}

// What a stopped board has in place of a state, which is a byte.
// Stays: a rule's state is compared with it once for both, and with an Option each caller would need a second test.
const NO_STATE: u64 = 256;

// The state of board p; of a stopped one a number that is no state, so that no rule leaves it.
pub fn awake_state(s: Sizes, w: &[u64], p: usize) -> u64
    requires { (Bounded s) × (p < s.correct) × (length w.now ≡ room_of s) }
    ensures { result ≡ awake_state s w.now p }
{
    if is_stopped(s, w, p) {
        return NO_STATE;
    }
    state_in(s, w, p)
}

// How many boards are stopped.
pub fn stopped_count(s: Sizes, w: &[u64]) -> u64
    requires { (Bounded s) × (length w.now ≡ room_of s) }
    ensures { (result ≡ correct_count s.correct (stopped_of s w.now)) × (result ≤ 64) }
{
    senders::correct_count(stopped_in(s, w), s.correct as u64)
}

// Board p stops.
pub fn stop(s: Sizes, w: &mut [u64], p: usize)
    requires { (Bounded s) × (p < s.correct) × (length w.old ≡ room_of s) }
    ensures { w.new ≡ words.stop s.correct s.types (forms.wide s.level) p w.old }
{
    let i = stopped_at(s);
    w[i] = senders::with(w[i], p as u64);
}

// Board p enters a state; the word is written only where that changes it.
pub fn enter(w: &mut [u64], p: usize, state: u64)
    requires { (p < length w.old) × (p ≤ 576) }
    ensures { w.new ≡ set w.old p state }
{
    if w[p] == state {
        return;
    }
    w[p] = state;
}

// The lowest source of a message of type m in transit to board p; as many as there are sources where there is none.
pub fn first_source(s: Sizes, w: &[u64], p: usize, m: usize) -> usize
    requires { (Bounded s) × (At s p m) × (Holds s in_step w.now) }
    ensures { result ≡ least (column_in s).sources (transit_in s w.now p m) }
{
    let k = sent_at(s, m);
    cell_in(s, w, p, m).first_source(s, w[k])
}

// Board p receives the message of type m from q.
pub fn hear(s: Sizes, w: &mut [u64], p: usize, m: usize, q: usize)
    requires { (Bounded s) × (At s p m) × (Sourced s q) × (Holds s in_step w.old) }
    ensures { w.new ≡ words.hear s.correct s.types (forms.wide s.level) p m (forms.slot s.level q) (forms.bump s.level q) w.old }
{
    let i = cell_at(s, p, m);
    level::receive(s.level, w, i, q);
}

// Board p sends type m.
pub fn tell(s: Sizes, w: &mut [u64], p: usize, m: usize)
    requires { (Bounded s) × (At s p m) × (Holds s in_step w.old) }
    ensures { w.new ≡ set w.old (sent_at s.correct s.types (forms.wide s.level) m) (forms.bump s.level ((column_in s).own p) (words.sent s.correct s.types (forms.wide s.level) w.old m)) }
{
    let i = sent_at(s, m);
    w[i] = level::bump(s.level, p, w[i]);
}
