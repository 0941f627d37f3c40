// Bundles at the edges of reading, each printed with its refusal and place. The file stdout has what the outline says.
#![tactic(auto)]

ghost use Rattle.std.specs.Prelude.{◌<◌, length};

use fault::refusals::Refused;
use std::io;

// A table of zero bytes but for the first state's initial flag, then a schedule of zero bytes, each with its trailer.
#[derive(Clone, Copy)]
struct Case {
    states: u8,
    rules: u8,
    types: u8,
    k: u8,
    starts: u8,
    steps: u16,
    n: u8,
    t: u8,
    f: u8,
    form: u8,
}

// Five steps of four boards with a table of four states, seven rules and one type.
const USUAL: Case = Case {
    states: 4,
    rules: 7,
    types: 1,
    k: 3,
    starts: 3,
    steps: 5,
    n: 4,
    t: 1,
    f: 1,
    form: 0,
};

fn main(rt: HostRuntime) -> io::Result<()> {
    for byte in [0, 255] {
        for length in 0..17 {
            raw(&rt, length, byte)?;
        }
    }
    table_counts(&rt)?;
    admitted(&rt)?;
    lengths(&rt)?;
    schedule_distances(&rt)?;
    table_distances(&rt)?;
    states(&rt)?;
    rules(&rt)?;
    starts(&rt)?;
    for n in [0, 7, 8, 9] {
        lent(&rt, n)?;
    }
    Ok(())
}

// Counts and k at 0, 1, the limit and one more, the types byte in both editions; then all limits at once. Zero is no divisor.
fn table_counts(rt: &impl Print) -> io::Result<()> {
    for (states, rules, types, k) in [
        (0, 7, 1, 3),
        (1, 7, 1, 3),
        (16, 7, 1, 3),
        (17, 7, 1, 3),
        (4, 0, 1, 3),
        (4, 1, 1, 3),
        (4, 64, 1, 3),
        (4, 65, 1, 3),
        (4, 7, 0, 3),
        (4, 7, 1, 3),
        (4, 7, 4, 3),
        (4, 7, 5, 3),
        (4, 7, 15, 3),
        (4, 7, 16, 3),
        (4, 7, 17, 3),
        (4, 7, 20, 3),
        (4, 7, 21, 3),
        (4, 7, 32, 3),
        (4, 7, 255, 3),
        (4, 7, 1, 0),
        (4, 7, 1, 1),
        (4, 7, 1, 8),
        (4, 7, 1, 9),
        (16, 64, 4, 8),
    ] {
        table(rt, states, rules, types, k)?;
    }
    Ok(())
}

// n, t, f and form at their edges; k·t = 256, which is 0 at 8 bits.
fn admitted(rt: &impl Print) -> io::Result<()> {
    for (k, starts, steps, n, t, f, form) in [
        (3, 0, 5, 0, 0, 0, 0),
        (3, 1, 5, 1, 0, 0, 0),
        (3, 64, 5, 64, 21, 0, 0),
        (3, 43, 5, 64, 21, 21, 0),
        (3, 65, 5, 65, 21, 0, 0),
        (3, 64, 5, 64, 22, 0, 0),
        (3, 3, 5, 3, 1, 0, 0),
        (3, 4, 5, 4, 1, 0, 0),
        (3, 2, 5, 4, 1, 2, 0),
        (1, 1, 5, 64, 63, 63, 0),
        (1, 64, 5, 64, 64, 0, 0),
        (8, 64, 5, 64, 32, 0, 0),
        (1, 64, 5, 64, 255, 0, 0),
        (3, 3, 5, 4, 1, 1, 1),
        (3, 3, 5, 4, 1, 1, 2),
        (3, 3, 5, 4, 1, 1, 3),
        (3, 3, 5, 4, 1, 1, 255),
    ] {
        schedule(rt, k, starts, steps, n, t, f, form)?;
    }
    Ok(())
}

// Steps at their edges; starts that are not n-f.
fn lengths(rt: &impl Print) -> io::Result<()> {
    for (starts, steps) in [(3, 0), (3, 1), (3, 4096), (3, 4097), (2, 5), (4, 5)] {
        schedule(rt, 3, starts, steps, 4, 1, 1, 0)?;
    }
    Ok(())
}

// The schedule's distances: no multiple of 4, too short, too far, before the start of the bundle.
fn schedule_distances(rt: &impl Print) -> io::Result<()> {
    changed(rt, 1, &[(8, 19)])?;
    changed(rt, 1, &[(8, 21)])?;
    changed(rt, 1, &[(8, 24)])?;
    changed(rt, 1, &[(7, 255)])?;
    changed(rt, 1, &[(6, 22)])?;
    changed(rt, 1, &[(6, 24)])?;
    changed(rt, 1, &[(5, 1)])?;
    changed(rt, 1, &[(5, 255)])
}

// The table's distances: too short, too far, before the start of the table, of the other edition.
fn table_distances(rt: &impl Print) -> io::Result<()> {
    changed(rt, 1, &[(39, 42)])?;
    changed(rt, 1, &[(39, 44)])?;
    changed(rt, 1, &[(38, 255)])?;
    changed(rt, 1, &[(37, 34)])?;
    changed(rt, 1, &[(37, 36)])?;
    changed(rt, 1, &[(36, 255)])?;
    changed(rt, 1, &[(33, 17)])?;
    changed(rt, 17, &[(33, 1)])
}

// Flags, sent masks, initial and sent, none initial; the lowest of two.
fn states(rt: &impl Print) -> io::Result<()> {
    changed(rt, 1, &[(82, 4)])?;
    changed(rt, 1, &[(76, 4)])?;
    changed(rt, 1, &[(76, 3)])?;
    changed(rt, 1, &[(77, 1)])?;
    changed(rt, 1, &[(77, 2)])?;
    changed(rt, 1, &[(81, 1)])?;
    changed(rt, 1, &[(82, 2)])?;
    changed(rt, 1, &[(75, 255), (80, 255)])
}

// No state, a type forgotten, two new types; 7 on rule 1 before 6 on rule 2.
fn rules(rt: &impl Print) -> io::Result<()> {
    changed(rt, 1, &[(74, 4)])?;
    changed(rt, 1, &[(43, 255)])?;
    changed(rt, 1, &[(74, 3)])?;
    changed(rt, 1, &[(64, 3), (75, 1)])?;
    changed(rt, 1, &[(63, 3), (75, 1)])?;
    changed(rt, 2, &[(96, 3), (62, 3)])?;
    changed(rt, 2, &[(96, 1), (62, 3)])?;
    changed(rt, 2, &[(96, 3), (87, 3), (79, 4)])
}

// Starts that are not initial, or no state.
fn starts(rt: &impl Print) -> io::Result<()> {
    changed(rt, 1, &[(31, 1)])?;
    changed(rt, 1, &[(29, 3)])?;
    changed(rt, 1, &[(30, 4)])?;
    changed(rt, 1, &[(30, 255)])
}

// W in a lent part of nine words, of which it needs eight: the answer, then all nine.
fn lent(rt: &impl Print, n: usize) -> io::Result<()> {
    let bundle = echo::schedule();
    let standing = echo::table();
    let mut words = [9u64; 9];
    print!(rt; "lent")?;
    print_numbers(rt, &[n as u64])?;
    run_lent(rt, &bundle, &standing, &mut words, n)
}

fn run_lent<'a>(
    rt: &impl Print,
    bundle: &'a [u8],
    standing: &'a [u8],
    words: &mut [u64],
    n: usize,
) -> io::Result<()> {
    if words.len() < n {
        return Ok(());
    }
    let a = engine::run(bundle, standing, &mut words[..n]);
    print!(rt; ":")?;
    print_numbers(rt, &[a.refusal, a.place, a.count])?;
    print_numbers(rt, words)?;
    println!(rt;)
}

// ---- the three kinds of bundle
// One byte again and again.
fn raw(rt: &impl Print, length: usize, byte: u8) -> io::Result<()>
    requires { length < 17 }
{
    let bytes = [byte; 17];
    print!(rt; "raw")?;
    print_numbers(rt, &[length as u64, u64::from(byte)])?;
    show(rt, bundle::read_fault(&bytes[..length], b""))
}

// A table of these counts before a schedule without steps for n = 64, t = 1, f = 1.
fn table(rt: &impl Print, states: u8, rules: u8, types: u8, k: u8) -> io::Result<()> {
    print!(rt; "table")?;
    print_numbers(rt, &[states, rules, types, k].map(u64::from))?;
    let case = Case {
        states,
        rules,
        types,
        k,
        starts: 63,
        steps: 0,
        n: 64,
        ..USUAL
    };
    show(rt, read(case, &[]))
}

// The usual table with this k before a schedule of these numbers.
fn schedule(
    rt: &impl Print,
    k: u8,
    starts: u8,
    steps: u16,
    n: u8,
    t: u8,
    f: u8,
    form: u8,
) -> io::Result<()> {
    print!(rt; "schedule")?;
    print_numbers(rt, &[k, starts].map(u64::from))?;
    print_numbers(rt, &[u64::from(steps)])?;
    print_numbers(rt, &[n, t, f, form].map(u64::from))?;
    let case = Case {
        k,
        starts,
        steps,
        n,
        t,
        f,
        form,
        ..USUAL
    };
    show(rt, read(case, &[]))
}

// The usual bundle with up to three bytes changed: places, counted back from the end, and the bytes that are put there. Three are
// printed, a change that there is not as 0 0.
fn changed(rt: &impl Print, types: u8, changes: &[(usize, u8)]) -> io::Result<()> {
    print!(rt; "changed")?;
    print_numbers(rt, &[u64::from(types)])?;
    for i in 0..3 {
        let (back, byte) = changes.get(i).copied().unwrap_or((0, 0));
        print_numbers(rt, &[back as u64, u64::from(byte)])?;
    }
    let case = Case { types, ..USUAL };
    show(rt, read(case, changes))
}

// ---- making and reading them
fn read(case: Case, changes: &[(usize, u8)]) -> Result<(), Refused> {
    let mut bytes = [0u8; 18000];
    let end = fill(&mut bytes, case);
    for (back, byte) in changes.iter() {
        if *back <= end {
            put(&mut bytes, end - *back, *byte);
        }
    }
    bundle::read_fault(&bytes[..end.min(18000)], b"")
}

// Makes the bundle, and answers its length.
fn fill(bytes: &mut [u8], c: Case) -> usize
    ensures { result < 5000000000 }
{
    put(bytes, 0, 1);
    let rules = fault::times(
        usize::from(c.rules),
        layout::rule_bytes(usize::from(c.types)),
    );
    let at = 2 * usize::from(c.states) + rules;
    put_trailer(bytes, at, at, rules, [c.states, c.rules, c.types, c.k]);
    let steps = 4 * usize::from(c.steps);
    let starts = usize::from(c.starts);
    let end = at + 8 + starts + steps;
    put_trailer(bytes, end, steps, steps + starts, [c.n, c.t, c.f, c.form]);
    end + 8
}

// Two distances, of two bytes each, and four numbers.
fn put_trailer(bytes: &mut [u8], at: usize, first: usize, second: usize, numbers: [u8; 4])
    requires { at < 5000000000 }
{
    let first = first.to_le_bytes();
    let second = second.to_le_bytes();
    let distances = [first[0], first[1], second[0], second[1]];
    for (i, byte) in distances.iter().enumerate() {
        put(bytes, at + i, *byte);
    }
    for (i, byte) in numbers.iter().enumerate() {
        put(bytes, at + 4 + i, *byte);
    }
}

fn put(bytes: &mut [u8], at: usize, byte: u8) {
    if let Some(x) = bytes.get_mut(at) {
        *x = byte;
    }
}

// ---- printing
fn show(rt: &impl Print, read: Result<(), Refused>) -> io::Result<()> {
    let (number, place) = match read {
        Ok(()) => (0, 0),
        Err(refused) => (refused.refusal.number(), refused.place),
    };
    print!(rt; ":")?;
    print_numbers(rt, &[number as u64, place as u64])?;
    println!(rt;)
}

// Each after a blank: a number at a time, so that what stands before an error is what it was (docs/DECISIONS.md).
fn print_numbers(rt: &impl Print, numbers: &[u64]) -> io::Result<()> {
    for number in numbers.iter() {
        print!(rt; " ")?;
        print!(rt; "{number}")?;
    }
    Ok(())
}
