// Numbers in plain decimal, read digit by digit; how they are written is a definition (specs/Numbers.antt).
#![tactic(auto)]

ghost use Rattle.std.specs.Prelude.{◌≡◌, ◌≤◌, length};
ghost use Rattle.decimal.specs.Digits.{is_digit, peeked, goes_on, Ends};

// A number that was read, and the place after it.
#[derive(Clone, Copy)]
pub struct Number {
    pub place: usize,
    pub value: usize,
}

// The byte at i; past the end 256, which is no byte.
// Stays: an Option is no plainer, since every test of the byte would need one of the end beside it, and 256 fails them all.
pub fn peek(text: &[u8], i: usize) -> usize
    ensures { (result ≡ peeked text.now i) × (result ≤ 256) }
{
    if i < text.len() {
        return fault::byte_at(text, i);
    }
    256
}

pub fn is_digit(c: usize) -> bool
    ensures { result ≡ is_digit c }
{
    (48 <= c) & (c <= 57)
}

// The digits from i on of a number whose size so far is v, so far as it is at most `most`.
pub fn rest(text: &[u8], i: usize, v: usize, most: usize) -> Number
    requires { (i ≤ length text.now) × (v ≤ 255) × (most ≤ 255) }
    ensures { Ends text.now i v most result }
{
    let mut w = v;
    for j in i..text.len() {
        let x = fault::byte_at(text, j);
        if !grows(x, w, most) {
            return Number { place: j, value: w };
        }
        w = w * 10 + (x - 48);
    }
    Number {
        place: text.len(),
        value: w,
    }
}

// Is x a digit with which the number stays in its range? 0 goes on with none.
fn grows(x: usize, v: usize, most: usize) -> bool
    requires { (v ≤ 255) × (x ≤ 256) }
    ensures { result ≡ goes_on x v most }
{
    if is_digit(x) {
        return (v != 0) & (v * 10 + (x - 48) <= most);
    }
    false
}
