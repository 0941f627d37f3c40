// Thresholds: (a·n + b·t + d)/e rounded up, as the least count that meets one. Signed numbers stay inside this crate.
#![tactic(auto)]

ghost use Rattle.std.specs.Prelude.{◌≡◌, ◌+◌, ◌-◌, ◌/◌, ◌≤◌, ◌<◌, pos, ◌+ℤ◌, ◌*ℤ◌};
ghost use Rattle.std.specs.Int.Signed.{mag};
ghost use Rattle.senders.specs.Set.{most_boards, most_tolerated};
ghost use Rattle.threshold.specs.Threshold.{signed_byte, sum_of, threshold_of, least_of};

// What a rule says of one type: three signed bytes and a divisor.
#[derive(Clone, Copy)]
pub struct Weights {
    pub a: u8,
    pub b: u8,
    pub d: u8,
    pub e: u8,
}

// The least count that meets the threshold.
pub fn least(w: Weights, n: u64, t: u64) -> u16
    requires { (1 ≤ w.e) × (n ≤ most_boards) × (t ≤ most_tolerated) }
    ensures { result ≡ least_of (threshold_of w n t) }
{
    divided(at_least_zero(sum(w, n, t)), w.e)
}

// a·n + b·t + d. Exact from -16,384 to 16,256, the ends for n = 64 and t = 63.
fn sum(w: Weights, n: u64, t: u64) -> i64
    requires { (n ≤ most_boards) × (t ≤ most_tolerated) }
    ensures { (result ≡ sum_of w n t) × (mag result ≤ 20000) }
{
    plus(plus(scaled(w.a, n), scaled(w.b, t)), signed(w.d))
}

// x·n for a coefficient x. Its bound is stated, so that a sum of such needs no law of products.
fn scaled(x: u8, n: u64) -> i64
    requires { n ≤ most_boards }
    ensures { (result ≡ signed_byte x *ℤ pos n) × (mag result ≤ 8192) }
{
    signed(x) * (n as i64)
}

// A byte as two's complement.
fn signed(x: u8) -> i64
    ensures { (result ≡ signed_byte x) × (mag result < 128) }
{
    i64::from(x.cast_signed())
}

// The sum of two small numbers.
fn plus(y: i64, z: i64) -> i64
    requires { (mag y ≤ 20000) × (mag z ≤ 20000) }
    ensures { (result ≡ y +ℤ z) × (mag result ≤ mag y + mag z + 1) }
{
    y + z
}

// A small number, or 0 in place of a negative one.
fn at_least_zero(z: i64) -> u16
    requires { mag z ≤ 20000 }
    ensures { (result ≡ least_of z) × (result ≤ 20000) }
{
    z.max(0) as u16
}

// A small number divided by e, rounded up.
fn divided(x: u16, e: u8) -> u16
    requires { (x ≤ 20000) × (1 ≤ e) }
    ensures { result ≡ (x + (e - 1)) / e }
{
    x.div_ceil(u16::from(e))
}
