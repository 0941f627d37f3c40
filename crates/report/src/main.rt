// The report program: a bundle on standard input, what its run comes to on standard output (outline, "The echo table and one
// bundle"). Its standing table is the echo table.
#![tactic(auto)]

ghost use Rattle.std.specs.Prelude.{◌≡◌, ◌≤◌, ◌<◌, length, IfOk};
ghost use Rattle.words.specs.Words.{room_of};
ghost use Rattle.words.specs.Facts.{most_words, Bounded, At};

use rules::Room;
use std::io;
use std::io::Read;
use words::Sizes;

// A table of 16 states and 64 rules of 18 bytes, 64 starts, 4,096 steps and two trailers.
const LARGEST: usize = 17648;

fn main(rt: HostRuntime) -> io::Result<()> {
    let mut input = [0u8; LARGEST + 1];
    let n = read_input(&rt, &mut input)?;
    report(&rt, &input[..n])
}

// Reads until the input ends or the bytes are full: how many came.
// Stays: a read may bring fewer bytes than there is room for, and the library reads to the end only into a Vec; no heap here.
fn read_input(rt: &impl Input, input: &mut [u8]) -> io::Result<usize>
    ensures within { IfOk result (λ n. n ≤ length input.new) }
{
    let mut reader = rt.reader();
    let mut n = 0;
    while n < input.len() {
        let came = reader.read(&mut input[n..])?;
        if came == 0 {
            return Ok(n);
        }
        n += came;
    }
    Ok(n)
}

fn report(rt: &impl Print, bundle: &[u8]) -> io::Result<()> {
    if LARGEST < bundle.len() {
        return print_result(rt, 40, 0, 0);
    }
    let standing = echo::table();
    let mut words = [0u64; words::MOST];
    report_run(rt, bundle, &standing, &mut words)
}

// The first line; then, where steps were looked at, the configuration. There is room for any, so that what was read was run.
fn report_run<'a>(
    rt: &impl Print,
    bundle: &'a [u8],
    standing: &'a [u8],
    words: &mut [u64],
) -> io::Result<()>
    requires { most_words ≤ length words.old }
{
    let a = engine::run(bundle, standing, words);
    print_result(rt, a.refusal, a.place, a.count)?;
    let mut room = Room::none();
    if engine::open(bundle, standing, &mut room).is_err() {
        return Ok(());
    }
    let need = words::room(room.sizes);
    print_configuration(rt, room.sizes, &words[..need])
}

fn print_result(rt: &impl Print, refusal: u64, place: u64, count: u64) -> io::Result<()> {
    println!(rt; "result {refusal} {place} {count}")
}

// A line for each board, then one for what was sent and one for the stopped boards.
fn print_configuration(rt: &impl Print, s: Sizes, w: &[u64]) -> io::Result<()>
    requires { (Bounded s) × (length w.now ≡ room_of s) }
{
    for p in 0..s.correct {
        print_board(rt, s, w, p)?;
    }
    print_sent(rt, s, w)?;
    let stopped = words::stopped_in(s, w);
    print!(rt; "stopped")?;
    print!(rt; " {stopped}")?;
    println!(rt;)
}

// Board, state, then the counts of each type.
fn print_board(rt: &impl Print, s: Sizes, w: &[u64], p: usize) -> io::Result<()>
    requires { (Bounded s) × (p < s.correct) × (length w.now ≡ room_of s) }
{
    let state = words::state_in(s, w, p);
    // Number by number, so that what stands before an error is what it was (docs/DECISIONS.md).
    print!(rt; "p")?;
    print!(rt; " {p}")?;
    print!(rt; " {state}")?;
    for m in 0..s.types {
        print_cell(rt, s, w, p, m)?;
    }
    println!(rt;)
}

// Correct and faulty count, or the one of a plain counter.
fn print_cell(rt: &impl Print, s: Sizes, w: &[u64], p: usize, m: usize) -> io::Result<()>
    requires { (Bounded s) × (At s p m) × (length w.now ≡ room_of s) }
{
    let correct = words::correct_in(s, w, p, m);
    print!(rt; " {correct}")?;
    if s.level < 2 {
        let faulty = words::faulty_in(s, w, p, m);
        print!(rt; " {faulty}")?;
    }
    Ok(())
}

// One count for each type.
fn print_sent(rt: &impl Print, s: Sizes, w: &[u64]) -> io::Result<()>
    requires { (Bounded s) × (length w.now ≡ room_of s) }
{
    print!(rt; "sent")?;
    for m in 0..s.types {
        let sent = words::sent_in(s, w, m);
        print!(rt; " {sent}")?;
    }
    println!(rt;)
}
