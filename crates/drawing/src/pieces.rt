// A text read piece by piece. A cursor that is stuck stays so, at the first byte with which no drawing goes on.
ghost use Rattle.std.specs.Prelude.{◌≡◌, true, false, not, ◌&&◌, [], ◌∷◌, ◌+◌, ◌≤◌, ◌<◌, eqb, length};
ghost use Rattle.decimal.specs.Digits.{is_digit};
ghost use Rattle.ink.specs.Ink.{stored, places};
ghost use Rattle.dot.specs.Text.{is_blank};
ghost use Rattle.dot.specs.Text as texts;
ghost use Rattle.dot.specs.Plan as plans;
ghost use Rattle.dot.specs.Reading.{limit, byte_of};
ghost use Rattle.drawing.specs.Cursor.{asked, Begun, Skipped, Followed, Counted, Digits, RestOfDigits, label_then, Numbered, Labelled};

use crate::Cursor;
use dot::Shape;

// At a place, free to go on.
pub fn stand(place: usize) -> Cursor
    ensures { result ≡ record { place = place; stuck = false; value = 0 } }
{
    Cursor {
        place,
        stuck: false,
        value: 0,
    }
}

// At a place where no drawing goes on.
pub fn stuck_at(place: usize) -> Cursor
    ensures { result ≡ record { place = place; stuck = true; value = 0 } }
{
    Cursor {
        place,
        stuck: true,
        value: 0,
    }
}

// ---- plans
// Space, tab, line feed, carriage return.
fn is_blank(c: usize) -> bool
    ensures { result ≡ is_blank c }
{
    (c == 32) | (c == 9) | (c == 10) | (c == 13)
}

// The place after the blanks from i on. Out of line: within a longer function its loop counts a dozen places of the loops around it at each blank.
#[inline(never)]
pub fn skip(text: &[u8], i: usize) -> usize
    requires { i ≤ length text.now }
    ensures { Skipped text.now i result }
{
    for j in i..text.len() {
        if !is_blank(fault::byte_at(text, j)) {
            return j;
        }
    }
    text.len()
}

// A quoted plan, code by code: ~ is a gap, _ a blank that must be, any other the byte itself.
pub fn follow(text: &[u8], c: Cursor, plan: &[u8]) -> Cursor
    requires { c.place ≤ length text.now }
    ensures { Followed text.now c plan.now result }
{
    let mut d = c;
    for code in plan {
        d = item(text, d, usize::from(*code));
    }
    d
}

// One code of a plan.
fn item(text: &[u8], c: Cursor, code: usize) -> Cursor
    requires { (c.place ≤ length text.now) × (code < 256) }
    ensures { Followed text.now c (code ∷ []) result }
{
    if c.stuck {
        return c;
    }
    let at = c.place;
    if code == 126 {
        return stand(skip(text, at));
    }
    if asks(code, decimal::peek(text, at)) {
        return stand(at + 1);
    }
    stuck_at(at)
}

// Is the byte x what the code asks for?
fn asks(code: usize, x: usize) -> bool
    ensures { result ≡ asked code x }
{
    if code == 95 {
        return is_blank(x);
    }
    x == code
}

// ---- numbers
// A number of the table, in -128 .. 127 or in 0 .. 255; its byte is the cursor's value.
pub fn number(text: &[u8], c: Cursor, signed: bool) -> Cursor
    requires { c.place ≤ length text.now }
    ensures { Counted text.now c signed result }
{
    let at = c.place;
    if c.stuck {
        return stuck_at(at);
    }
    if signed & (decimal::peek(text, at) == 45) {
        return digits(text, at + 1, signed, true);
    }
    digits(text, at, signed, false)
}

// The digits from i on, after a minus or not.
fn digits(text: &[u8], i: usize, signed: bool, negative: bool) -> Cursor
    requires { (i ≤ length text.now) × (Begun text.now i signed negative) }
    ensures { Digits text.now i signed negative result }
{
    let x = decimal::peek(text, i);
    if begins(x, negative) {
        return rest(text, i + 1, x - 48, signed, negative);
    }
    stuck_at(i)
}

// Is x a first digit? After a minus 0 is none.
fn begins(x: usize, negative: bool) -> bool
    ensures { result ≡ (is_digit x && not (negative && eqb x 48)) }
{
    decimal::is_digit(x) & !(negative & (x == 48))
}

// The digits after the first, so far as the number stays in its range.
fn rest(text: &[u8], i: usize, v: usize, signed: bool, negative: bool) -> Cursor
    requires { (i ≤ length text.now) × (v < 10) × (negative ≡ true → 1 ≤ v) }
    ensures { RestOfDigits text.now i v signed negative result }
{
    let n = decimal::rest(text, i, v, largest(signed, negative));
    Cursor {
        place: n.place,
        stuck: false,
        value: byte_of(negative, n.value),
    }
}

// The largest size of a number.
fn largest(signed: bool, negative: bool) -> usize
    ensures { (result ≡ limit signed negative) × (result ≤ 255) }
{
    if !signed {
        return 255;
    }
    if negative {
        return 128;
    }
    127
}

// The byte of a whole number.
fn byte_of(negative: bool, v: usize) -> usize
    requires { (v ≤ 255) × (negative ≡ true → 1 ≤ v) }
    ensures { (result ≡ byte_of negative v) × (result < 256) }
{
    if negative {
        return 256 - v;
    }
    v
}

// ---- labels
// A label of some numbers and the end of its line, from after the bracket on; their bytes are put into `out` from n on.
pub fn label(text: &[u8], c: Cursor, count: usize, shape: Shape, out: &mut [u8], n: usize) -> Cursor
    requires { (c.place ≤ length text.now) × (count ≤ 1020) × (1 ≤ shape.group) × (n ≤ 9223372036854775810) }
    ensures { Labelled text.now c count (label_then shape count) result n out.old out.new }
{
    let a = follow(text, c, b"~label~=~\"");
    let b = numbers(text, a, count, shape, out, n);
    follow(text, b, b"\"~]~;")
}

// The numbers of a label.
fn numbers(text: &[u8], c: Cursor, count: usize, shape: Shape, out: &mut [u8], n: usize) -> Cursor
    requires { (c.place ≤ length text.now) × (count ≤ 1020) × (1 ≤ shape.group) × (n ≤ 9223372036854775810) }
    ensures { Labelled text.now c count (plans.numbers shape count 0) result n out.old out.new }
{
    let mut d = c;
    // The place of number j in its group.
    let mut i = 0;
    for j in 0..count {
        d = number_at(text, d, j, i, i < shape.signed, out, n + j);
        i = dot::next(i, shape.group);
    }
    d
}

// Number j of a label, at place i of its group, whose byte is put at n.
fn number_at(
    text: &[u8],
    c: Cursor,
    j: usize,
    i: usize,
    signed: bool,
    out: &mut [u8],
    n: usize,
) -> Cursor
    requires { (c.place ≤ length text.now) × (n < places) }
    ensures { (Numbered text.now c j i signed result) × (out.new ≡ stored out.old n (result.value ∷ [])) }
{
    let d = number(text, joint(text, c, j, i), signed);
    ink::put(out, n, byte(d.value));
    d
}

// What stands before number j of a label, at place i of its group.
fn joint(text: &[u8], c: Cursor, j: usize, i: usize) -> Cursor
    requires { c.place ≤ length text.now }
    ensures { Followed text.now c (texts.joint_at j i) result }
{
    if j == 0 {
        return c;
    }
    if i == 0 {
        return follow(text, c, b", ");
    }
    follow(text, c, b" ")
}

// A number below 256 as a byte.
pub fn byte(v: usize) -> u8
    requires { v < 256 }
    ensures { result ≡ v }
{
    v as u8
}
