// What every reading stage says and reads: verdicts, bytes and little-endian numbers.
#![tactic(auto)]

ghost use Rattle.std.specs.Prelude.{◌≡◌, ◌+◌, ◌-◌, ◌*◌, ◌/◌, ◌%◌, ◌≤◌, ◌<◌, length};
ghost use Rattle.fault.specs.Bytes.{byte_at, u16_at, trailer_bytes, trailer_of};
ghost use Rattle.fault.specs.Tests as tests;

pub mod refusals; // what is refused, by name

// A trailer is the last bytes of its part.
pub const TRAILER_BYTES: usize = 8;

// What a call answers: refusal, place and a count.
// Stays: the calls for C pack these three numbers, and the theorems in claims speak of them; within, a Result is handed on.
#[derive(Clone, Copy)]
pub struct Answer {
    pub refusal: u64,
    pub place: u64,
    pub count: u64,
}

// The answer of three numbers.
pub fn answered(refusal: usize, place: usize, count: usize) -> Answer
    ensures { result ≡ record { refusal = refusal; place = place; count = count } }
{
    Answer {
        refusal: refusal as u64,
        place: place as u64,
        count: count as u64,
    }
}

// Is x not in lo .. hi?
pub fn outside(lo: usize, hi: usize, x: usize) -> bool
    ensures { result ≡ tests.outside lo hi x }
{
    (x < lo) | (hi < x)
}

// The product of two numbers of at most 16 bits, which never wraps.
pub fn times(a: usize, b: usize) -> usize
    requires { (a < 65536) × (b < 65536) }
    ensures { (result ≡ a * b) × (result < 4294967296) }
{
    a * b
}

// The byte at i, as a number.
pub fn byte_at(s: &[u8], i: usize) -> usize
    requires { i < length s.now }
    ensures { (result ≡ byte_at s.now i) × (result < 256) }
{
    as_number(s[i])
}

fn as_number(x: u8) -> usize
    ensures { (result ≡ x) × (result < 256) }
{
    x as usize
}

// The little-endian number at bytes i and i + 1.
pub fn u16_at(s: &[u8], i: usize) -> usize
    requires { i + 1 < length s.now }
    ensures value { (result ≡ u16_at s.now i) × (result < 65536) }
    ensures i_bound { (byte_at s.now i < 256) × (byte_at s.now (i + 1) < 256) }
{
    byte_at(s, i) + 256 * byte_at(s, i + 1)
}

// The low and the high byte of a number of two.
pub fn low(x: usize) -> u8
    ensures { result ≡ x % 256 }
{
    (x % 256) as u8
}

pub fn high(x: usize) -> u8
    requires { x < 65536 }
    ensures { result ≡ x / 256 }
{
    (x / 256) as u8
}

// All bytes of `from`, in their places.
// Stays: with the library's `copy_from_slice` the archive asks C for `memmove` too; a loop over bytes asks for nothing.
pub fn copy(from: &[u8], to: &mut [u8])
    requires { length to.old ≡ length from.now }
    ensures { to.new ≡ from.now }
{
    for (i, byte) in from.iter().enumerate() {
        to[i] = *byte;
    }
}

// Byte k of the trailer.
pub fn trailer_byte(s: &[u8], k: usize) -> usize
    requires { (trailer_bytes ≤ length s.now) × (k < trailer_bytes) }
    ensures { (result ≡ byte_at s.now (trailer_of s.now + k)) × (result < 256) }
{
    byte_at(s, s.len() - TRAILER_BYTES + k)
}

// The little-endian number at bytes k and k + 1 of the trailer.
pub fn trailer_u16(s: &[u8], k: usize) -> usize
    requires { (trailer_bytes ≤ length s.now) × (k + 1 < trailer_bytes) }
    ensures { (result ≡ u16_at s.now (trailer_of s.now + k)) × (result < 65536) }
{
    u16_at(s, s.len() - TRAILER_BYTES + k)
}
