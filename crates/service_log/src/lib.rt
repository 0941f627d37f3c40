// A service log: each line says a step. Lines are read one by one from a slice and a place; `Reader` keeps both.
#![tactic(auto)]

ghost use Rattle.std.specs.Prelude.{◌≡◌, [], ◌+◌, ◌*◌, ◌≤◌, ◌<◌, length, drop};
ghost use Rattle.fault.specs.Refusals.{told};
ghost use Rattle.schedule.specs.Records.{put_from};
ghost use Rattle.service_log.specs.Said.{hearing, said_by};
ghost use Rattle.service_log.specs.Said as said;
ghost use Rattle.service_log.specs.Lines.{log_fault, log_steps};
ghost use Rattle.service_log.specs.Cursor.{right_lines, Four, Numbered, Tells, Handed};

use decimal::Number;
use fault::refusals::{Refusal, Refused};
use schedule::Step;

// The largest number that a line says.
const MOST: usize = 254;

// As many lines as a schedule has steps.
const MOST_LINES: usize = 4096;

// What stands at a place of a log: its end, a line that is not right, or one that says a step, and where the next begins.
#[derive(Clone, Copy)]
pub enum Line {
    End,
    Other,
    Said { step: Step, next: usize },
}

// A log and a place in it.
#[derive(Clone, Copy)]
pub struct Reader<'a> {
    pub log: &'a [u8],
    pub at: usize,
}

// ---- whole logs
// The refusal of a log; or how many lines it has, which all are right.
pub fn check_lines(log: &[u8]) -> Result<usize, Refused>
    ensures { (told result ≡ log_fault log.now) × (right_lines result ≡ length (log_steps log.now)) }
{
    // No record fits in one byte.
    let mut none = [0u8; 1];
    take_lines(log, &mut none)
}

// Looks at every line, up to the first that is not right or is one too many, and puts the records of the right ones into `out`, so far as they fit.
pub fn take_lines(log: &[u8], out: &mut [u8]) -> Result<usize, Refused>
    ensures number_value { (told result ≡ log_fault log.now) × (right_lines result ≡ length (log_steps log.now)) }
    ensures out_after { out.new ≡ put_from 0 (log_steps log.now) out.old }
{
    let mut at = 0;
    for place in 0..MOST_LINES {
        match line_from(log, at) {
            Line::End => return Ok(place),
            Line::Other => {
                return Err(Refused {
                    refusal: Refusal::WrongLine,
                    place,
                });
            }
            Line::Said { step, next } => {
                schedule::put_step(out, place, step);
                at = next;
            }
        }
    }
    if at < log.len() {
        return Err(Refused {
            refusal: Refusal::TooManyLines,
            place: MOST_LINES,
        });
    }
    Ok(MOST_LINES)
}

// ---- the reader
// The line at a place, for callers that hold no reader.
pub fn line_from(log: &[u8], at: usize) -> Line
    ensures { Handed log.now at result }
{
    next(moved(new(log), at))
}

// A reader at the beginning of a log.
pub fn new<'a>(log: &'a [u8]) -> Reader<'a>
    ensures { (result.log ≡ log.entry) × (result.at ≡ 0) }
{
    Reader { log, at: 0 }
}

// The same log, at another place.
pub fn moved<'a>(r: Reader<'a>, at: usize) -> Reader<'a>
    ensures { (result.log ≡ r.entry.log) × (result.at ≡ at) }
{
    Reader { log: r.log, at }
}

// The line where the reader stands.
pub fn next<'a>(r: Reader<'a>) -> Line
    ensures { Handed r.entry.log.now r.entry.at result }
{
    line_at(r.log, r.at)
}

// ---- a line
// The line at a place.
pub fn line_at(log: &[u8], at: usize) -> Line
    ensures { Handed log.now at result }
{
    if log.len() <= at {
        return Line::End;
    }
    match said_at(log, at) {
        Some((step, next)) => Line::Said { step, next },
        None => Line::Other,
    }
}

// The step that a right line says, and where the next line begins.
fn said_at(log: &[u8], at: usize) -> Option<(Step, usize)>
    requires { at ≤ length log.now }
    ensures { Tells log.now at (said_by (drop at log.now)) result }
{
    let board = numbered(log, at, b"board ")?;
    let rule = numbered(log, board.place, b" rule ")?;
    rest_of_line(log, board.value, rule.value, rule.place)
}

// The rest of a line after its board and rule.
fn rest_of_line(log: &[u8], board: usize, rule: usize, at: usize) -> Option<(Step, usize)>
    requires { (at ≤ length log.now) × (board ≤ 255) × (rule ≤ 255) }
    ensures { Tells log.now at (hearing board rule (drop at log.now)) result }
{
    if decimal::peek(log, at) == 10 {
        let step = Step {
            board,
            rule,
            mtype: 255,
            source: 255,
        };
        return Some((step, at + 1));
    }
    let mtype = numbered(log, at, b" type ")?;
    let source = numbered(log, mtype.place, b" from ")?;
    if decimal::peek(log, source.place) != 10 {
        return None;
    }
    let step = Step {
        board,
        rule,
        mtype: mtype.value,
        source: source.value,
    };
    Some((step, source.place + 1))
}

// A word of six bytes, which all words of a line have, and a number after it. Both take seven bytes at least.
fn numbered(log: &[u8], at: usize, word: &[u8]) -> Option<Number>
    requires { (at ≤ length log.now) × (length word.now ≡ 6) }
    ensures { Numbered log.now at word.now result }
{
    if log.len() - at < 7 {
        return None;
    }
    if !begins(log, at, word) {
        return None;
    }
    number(log, at + 6)
}

// Does the word stand here? Its bytes are compared four and two at a time.
fn begins(log: &[u8], at: usize, word: &[u8]) -> bool
    requires { (at + 6 ≤ length log.now) × (length word.now ≡ 6) }
    ensures { result ≡ said.begins word.now (drop at log.now) }
{
    (four(log, at) == four(word, 0)) & (fault::u16_at(log, at + 4) == fault::u16_at(word, 4))
}

// Four bytes as one number, the first lowest.
fn four(s: &[u8], i: usize) -> usize
    requires { i + 4 ≤ length s.now }
    ensures { Four s.now i result }
{
    fault::u16_at(s, i) + 65536 * fault::u16_at(s, i + 2)
}

// A number of at most 254.
fn number(log: &[u8], at: usize) -> Option<Number>
    requires { at < length log.now }
    ensures { Numbered log.now at [] result }
{
    let x = fault::byte_at(log, at);
    if !decimal::is_digit(x) {
        return None;
    }
    Some(decimal::rest(log, at + 1, x - 48, MOST))
}
