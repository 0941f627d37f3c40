// A set of up to 64 senders is a u64: bit q for sender q.
#![tactic(auto)]

ghost use Rattle.std.specs.Prelude.{◌≡◌, not, ◌&&◌, ◌||◌, ◌+◌, ◌-◌, ◌^◌, ◌≤◌, ◌<◌, ltb, leb};
ghost use Rattle.senders.specs.Tally.{count, least};
ghost use Rattle.senders.specs.Set.{mem, insert, missing, correct_count, faulty_count, most_boards};

// The most boards, since a set has a bit for each.
pub const MOST_BOARDS: u64 = 64;

// Is q in the set?
pub fn has(set: u64, q: u64) -> bool
    requires { q < most_boards }
    ensures { result ≡ mem set q }
{
    (set >> q) % 2 == 1
}

// Is q's message on its way: has q sent, or is it a faulty sender, one from c on, and is q missing from the set that was received?
pub fn in_transit(sent: u64, got: u64, c: u64, q: u64) -> bool
    requires { (c ≤ most_boards) × (q < most_boards) }
    ensures { result ≡ (ltb q c && missing sent got q || leb c q && not (mem got q)) }
{
    has(!(first(c) & !sent) & !got, q)
}

// The set with q in it: a sender that is there already is not counted twice.
// Stays: without `% 64` each step of a run takes 4 or 5 instructions more, since LLVM then shifts before the test that decides.
pub fn with(set: u64, q: u64) -> u64
    requires { q < most_boards }
    ensures { result ≡ insert q set }
{
    set | (1u64 << (q % 64))
}

// The senders below c, as a set.
fn first(c: u64) -> u64
    requires { c ≤ most_boards }
    ensures { result ≡ 2 ^ c - 1 }
{
    if c < MOST_BOARDS {
        (1u64 << c) - 1
    } else {
        u64::MAX
    }
}

// How many of the senders below c are in the set.
pub fn correct_count(set: u64, c: u64) -> u64
    requires { c ≤ most_boards }
    ensures { (result ≡ correct_count c set) × (result ≤ most_boards) }
{
    u64::from((set & first(c)).count_ones())
}

// How many of the f senders from c on are in the set.
pub fn faulty_count(set: u64, c: u64, f: u64) -> u64
    requires { f + c ≤ most_boards }
    ensures { (result ≡ faulty_count c f set) × (result ≤ most_boards) }
{
    u64::from((set & (first(f + c) - first(c))).count_ones())
}

// How many members of the set below c are missing from the other.
pub fn missing_count(set: u64, other: u64, c: u64) -> u64
    requires { c ≤ most_boards }
    ensures { (result ≡ count c (missing set other)) × (result ≤ most_boards) }
{
    correct_count(set & !other, c)
}

// The lowest member of the set below c that is missing from the other; c where none is.
// Stays: the definition, `least`, has its bound for none, and callers write that number on or compare with it once.
pub fn lowest_missing(set: u64, other: u64, c: u64) -> u64
    requires { c ≤ most_boards }
    ensures { (result ≡ least c (missing set other)) × (result ≤ c) }
{
    u64::from((set & !other).trailing_zeros()).min(c)
}

// The lowest of the correct senders, those below c, that is in the set and missing from the other; n where none is.
pub fn lowest_correct(set: u64, other: u64, c: u64, n: u64) -> u64
    requires { (c ≤ most_boards) × (n ≤ most_boards) }
    ensures { (result ≡ least n (λ q. ltb q c && missing set other q)) × (result ≤ n) }
{
    lowest_missing(first(c) & set, other, n)
}

// The lowest of the faulty senders, those from c on, that is missing from the set; n where none is.
pub fn lowest_faulty(set: u64, c: u64, n: u64) -> u64
    requires { (c ≤ most_boards) × (n ≤ most_boards) }
    ensures { (result ≡ least n (λ q. leb c q && not (mem set q))) × (result ≤ n) }
{
    lowest_missing(!first(c), set, n)
}

// The lowest sender below n whose message is on its way; n where none is.
pub fn lowest_in_transit(sent: u64, got: u64, c: u64, n: u64) -> u64
    requires { (c ≤ most_boards) × (n ≤ most_boards) }
    ensures { (result ≡ least n (λ q. ltb q c && missing sent got q || leb c q && not (mem got q))) × (result ≤ n) }
{
    lowest_missing(!(first(c) & !sent), got, n)
}
