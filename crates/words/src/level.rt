// The level, on numbers: what the words of a cell and a sent word come to.
ghost use Rattle.std.specs.Prelude.{◌≡◌, ◌+◌, ◌≤◌, ◌<◌, eqb, length, get_or, set};
ghost use Rattle.senders.specs.Tally.{least};
ghost use Rattle.fault.specs.Fault.{◌if◌else◌};
ghost use Rattle.paper.specs.Paper.{column};
ghost use Rattle.paper.specs.Form.{shown};
ghost use Rattle.paper.specs.Form as forms;
ghost use Rattle.words.specs.Facts.{in_step, Leveled};
ghost use Rattle.words.specs.Words.{column_in, held_in, from_correct, from_faulty};

use crate::Sizes;

// How many words a cell has.
pub fn wide(level: usize) -> usize
    ensures { (result ≡ forms.wide level) × (1 ≤ result) × (result ≤ 2) }
{
    if level == 1 { 2 } else { 1 }
}

// A word after a message from q.
pub fn bump(level: usize, q: usize, word: u64) -> u64
    requires q_bound { q < 64 }
    requires word_le_in_step { (level ≡ 0 → ⊥) → word ≤ in_step }
    ensures { result ≡ forms.bump level q word }
{
    if level == 0 {
        senders::with(word, q as u64)
    } else {
        word + 1
    }
}

// The cell that begins at i receives a message from q.
pub fn receive(level: usize, w: &mut [u64], i: usize, q: usize)
    requires q_bound { (q < 64) × (i ≤ 576) × (i + forms.slot level q < length w.old) }
    requires q_bound_2 { (level ≡ 0 → ⊥) → (q < forms.wide level) × (get_or w.old (i + q) 0 ≤ in_step) }
    ensures { w.new ≡ set w.old (i + forms.slot level q) (forms.bump level q (get_or w.old (i + forms.slot level q) 0)) }
{
    if level == 0 {
        w[i] = senders::with(w[i], q as u64);
        return;
    }
    w[i + q] += 1;
}

// ---- the levels that count differ in how many words a cell has; with that number at hand they go one way
// How many messages there are: 0 .. n-1 by their senders, or as many as a cell has counts.
pub fn sources(level: usize, wide: usize, c: usize, f: usize) -> usize
    requires { (c + f ≤ 64) × (wide ≡ forms.wide level) }
    ensures { (result ≡ (column level c f).sources) × (result ≤ 64) }
{
    if level == 0 { c + f } else { wide }
}

// The first and the last word of a cell, which are the same where it has one.
#[derive(Clone, Copy)]
pub struct Cell {
    pub first: u64,
    pub last: u64,
}

impl Cell {
    // How many messages it holds; where the two words are the same, it counts once.
    pub fn card(self, s: Sizes) -> u64
        requires leveled { Leveled s }
        requires small { (s.level ≡ 0 → ⊥) → (self.first ≤ in_step) × (self.last ≤ in_step) }
        ensures { (result ≡ (column_in s).card (held_in s self)) × (result ≤ 2000000) }
    {
        if s.level == 0 {
            senders::correct_count(self.first, (s.correct + s.faulty) as u64)
        } else {
            self.first + (s.wide - 1) as u64 * self.last
        }
    }

    // How many of these messages are from correct boards; where the cell has one count, how many there are.
    pub fn from_correct(self, s: Sizes) -> u64
        requires { s.correct + s.faulty ≤ 64 }
        ensures { result ≡ from_correct s.level s.correct s.faulty (held_in s self) }
    {
        if s.level == 0 {
            senders::correct_count(self.first, s.correct as u64)
        } else {
            self.first
        }
    }

    // And how many from faulty ones, where that is told.
    pub fn from_faulty(self, s: Sizes) -> u64
        requires { s.correct + s.faulty ≤ 64 }
        ensures { result ≡ from_faulty s.level s.correct s.faulty (held_in s self) }
    {
        if s.level == 0 {
            return senders::faulty_count(self.first, s.correct as u64, s.faulty as u64);
        }
        if s.level == 1 { self.last } else { 0 }
    }

    // Is a message from q in transit to the board that has this cell, where this was sent?
    pub fn in_transit(self, s: Sizes, q: usize, out: u64) -> bool
        requires leveled { Leveled s }
        requires q_bound { q < 64 }
        requires small { (s.level ≡ 0 → ⊥) → out ≤ in_step }
        ensures { result ≡ (column_in s).in_transit q (held_in s self) (shown s.level s.correct s.faulty out) }
    {
        if s.level == 0 {
            senders::in_transit(out, self.first, s.correct as u64, q as u64)
        } else {
            self.count_in_transit(s, q, out)
        }
    }

    fn count_in_transit(self, s: Sizes, q: usize, out: u64) -> bool
        requires { (s.faulty ≤ 64) × (s.wide ≡ forms.wide s.level) × (s.level ≡ 0 → ⊥) × (out ≤ in_step) }
        ensures { result ≡ (column_in s).in_transit q (held_in s self) (shown s.level s.correct s.faulty out) }
    {
        if q == 0 {
            return self.first < limit(s.wide, s.faulty, out);
        }
        (q < s.wide) & (self.last < s.faulty as u64)
    }

    // The lowest source of a message in transit; as many as there are sources where there is none.
    // Stays: the definition, `least`, and the theorems about it have that number for none, and callers compare with it once.
    pub fn first_source(self, s: Sizes, out: u64) -> usize
        requires leveled { Leveled s }
        requires small { (s.level ≡ 0 → ⊥) → out ≤ in_step }
        ensures { result ≡ least (column_in s).sources (λ q. (column_in s).in_transit q (held_in s self) (shown s.level s.correct s.faulty out)) }
    {
        if s.level == 0 {
            let n = s.correct + s.faulty;
            senders::lowest_in_transit(out, self.first, s.correct as u64, n as u64) as usize
        } else {
            self.first_count(s, out)
        }
    }

    // Of one count, 1 is as many as there are sources: the second test then makes no difference.
    fn first_count(self, s: Sizes, out: u64) -> usize
        requires { (s.faulty ≤ 64) × (s.wide ≡ forms.wide s.level) × (s.level ≡ 0 → ⊥) × (out ≤ in_step) }
        ensures { result ≡ least (column_in s).sources (λ q. (column_in s).in_transit q (held_in s self) (shown s.level s.correct s.faulty out)) }
    {
        if self.first < limit(s.wide, s.faulty, out) {
            return 0;
        }
        if self.last < s.faulty as u64 {
            return 1;
        }
        s.wide
    }
}

// A first count below this has a message in transit: what was sent, and where it is the only count, one from each faulty board.
fn limit(wide: usize, f: usize, out: u64) -> u64
    requires { (f ≤ 64) × (out ≤ in_step) }
    ensures { result ≡ (out + f if eqb wide 1 else out) }
{
    choose(wide == 1, with_faulty(f, out), out)
}

fn with_faulty(f: usize, out: u64) -> u64
    requires { (f ≤ 64) × (out ≤ in_step) }
    ensures { result ≡ out + f }
{
    out + f as u64
}

// The first where the test says yes, and else the second.
fn choose(test: bool, x: u64, y: u64) -> u64
    ensures { result ≡ (x if test else y) }
{
    if test { x } else { y }
}
