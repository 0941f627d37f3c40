// The whole bundle: the table in use, refusals 10 to 14 with the table's own among them, and the views that stepping needs.
#![tactic(auto)]

ghost use Rattle.std.specs.Prelude.{◌≡◌, ◌+◌, ◌≤◌, ◌<◌, length};
ghost use Rattle.fault.specs.Bytes.{trailer_of, trailer_bytes};
ghost use Rattle.fault.specs.Fault.{first_fault};
ghost use Rattle.fault.specs.Refusals.{code, told};
ghost use Rattle.table.specs.Facts.{Sized};
ghost use Rattle.bundle.specs.Bundle.{step_distance, start_distance, n_of, t_of, f_of, form_of, level_of, correct_of, front_length, table_in_use, starts_of, steps_at, steps_of, most_level};
ghost use Rattle.bundle.specs.Refusals.{no_trailer, out_of_bundle, not_admitted, steps_off, not_initial, start_fault, schedule_fault, fault_with, read_fault};
ghost use Rattle.bundle.specs.Facts.{Trailed, Parted};

use fault::refusals::{Refusal, Refused, lowest};

// The most boards; the least is 1.
pub const MOST_BOARDS: usize = senders::MOST_BOARDS as usize;

// The last form, and the last level that a form steps at.
pub const MOST_FORM: usize = 2;

pub const MOST_LEVEL: usize = 2;

// How many bytes a step record has: board, rule, type, source.
pub const STEP_BYTES: usize = 4;

// The most steps that a schedule has, and their bytes.
pub const MOST_STEPS: usize = 4096;

pub const MOST_STEP_BYTES: usize = MOST_STEPS * STEP_BYTES;

// The most bytes of a bundle: a table of its own, starts, steps and a trailer.
pub const MOST_BYTES: usize = table::MOST_BYTES
    + MOST_BOARDS
    + MOST_STEP_BYTES
    + fault::TRAILER_BYTES;

// The bundle's first refusal beside the standing table, for every two byte strings.
pub fn read_fault<'a>(bundle: &'a [u8], standing: &'a [u8]) -> Result<(), Refused>
    ensures { told result ≡ read_fault bundle.now standing.now }
{
    fault_with(table_in_use(bundle, standing), bundle)
}

// The first refusal of a bundle whose table in use is given.
fn fault_with(table: &[u8], bundle: &[u8]) -> Result<(), Refused>
    ensures { told result ≡ fault_with table.now bundle.now }
{
    if no_trailer(bundle) {
        return Err(Refusal::BundleShort.at(0));
    }
    if out_of_bundle(bundle) {
        return Err(Refusal::OutOfBundle.at(0));
    }
    table::table_fault(table)?;
    schedule_fault(table, bundle)
}

// The first refusal of the schedule part, once its table is read.
fn schedule_fault(table: &[u8], bundle: &[u8]) -> Result<(), Refused>
    requires { (Sized table.now) × (Trailed bundle.now) }
    ensures { told result ≡ schedule_fault table.now bundle.now }
{
    if not_admitted(table::factor(table), bundle) {
        return Err(Refusal::NotAdmitted.at(0));
    }
    if steps_off(bundle) {
        return Err(Refusal::StepsOff.at(0));
    }
    starts_fault(table, starts(bundle))
}

// The table in use: the front of the bundle, or the standing table where the front is empty. No byte is copied.
pub fn table_in_use<'a>(bundle: &'a [u8], standing: &'a [u8]) -> &'a [u8]
    ensures { result.now ≡ table_in_use bundle.now standing.now }
{
    let n = front(bundle);
    if n == 0 { standing } else { &bundle[..n] }
}

// How many bytes the front has; 0 also where there is no trailer.
fn front(b: &[u8]) -> usize
    ensures { (result ≡ front_length b.now) × (result ≤ length b.now) }
{
    if b.len() < fault::TRAILER_BYTES {
        return 0;
    }
    let back = start_distance(b) + fault::TRAILER_BYTES;
    if b.len() < back { 0 } else { b.len() - back }
}

// ---- the trailer
pub fn step_distance(b: &[u8]) -> usize
    requires { trailer_bytes ≤ length b.now }
    ensures { (result ≡ step_distance b.now) × (result < 65536) }
{
    fault::trailer_u16(b, 0)
}

pub fn start_distance(b: &[u8]) -> usize
    requires { trailer_bytes ≤ length b.now }
    ensures { (result ≡ start_distance b.now) × (result < 65536) }
{
    fault::trailer_u16(b, 2)
}

pub fn n(b: &[u8]) -> usize
    requires { trailer_bytes ≤ length b.now }
    ensures { (result ≡ n_of b.now) × (result < 256) }
{
    fault::trailer_byte(b, 4)
}

pub fn t(b: &[u8]) -> usize
    requires { trailer_bytes ≤ length b.now }
    ensures { (result ≡ t_of b.now) × (result < 256) }
{
    fault::trailer_byte(b, 5)
}

pub fn f(b: &[u8]) -> usize
    requires { trailer_bytes ≤ length b.now }
    ensures { (result ≡ f_of b.now) × (result < 256) }
{
    fault::trailer_byte(b, 6)
}

pub fn form(b: &[u8]) -> usize
    requires { trailer_bytes ≤ length b.now }
    ensures { (result ≡ form_of b.now) × (result < 256) }
{
    fault::trailer_byte(b, 7)
}

// The level that its form steps at.
pub fn level(b: &[u8]) -> usize
    requires { trailer_bytes ≤ length b.now }
    ensures { (result ≡ level_of (form_of b.now)) × (result ≤ most_level) }
{
    let k = form(b);
    if k < MOST_LEVEL { k } else { MOST_LEVEL }
}

// How many boards are correct.
pub fn correct(b: &[u8]) -> usize
    requires { trailer_bytes ≤ length b.now }
    ensures { (result ≡ correct_of b.now) × (result < 256) }
{
    let n = n(b);
    let f = f(b);
    if f < n { n - f } else { 0 }
}

// ---- the parts
// The start bytes, one for each correct board. No byte is copied.
pub fn starts<'a>(b: &'a [u8]) -> &'a [u8]
    requires { (Trailed b.now) × (Parted b.now) }
    ensures { result.now ≡ starts_of b.now }
{
    let at = front(b);
    let end = at + correct(b);
    &b[at..end]
}

// The step records. No byte is copied.
pub fn steps<'a>(b: &'a [u8]) -> &'a [u8]
    requires { (Trailed b.now) × (Parted b.now) }
    ensures { result.now ≡ steps_of b.now }
{
    let at = steps_at(b);
    let end = at + step_distance(b);
    &b[at..end]
}

// Where the first of them stands.
pub fn steps_at(b: &[u8]) -> usize
    requires { (Trailed b.now) × (Parted b.now) }
    ensures { (result ≡ steps_at b.now) × (result + step_distance b.now ≡ trailer_of b.now) }
{
    front(b) + correct(b)
}

// ---- the refusals
// 10
fn no_trailer(b: &[u8]) -> bool
    ensures { result ≡ no_trailer b.now }
{
    b.len() < fault::TRAILER_BYTES
}

// 11
fn out_of_bundle(b: &[u8]) -> bool
    requires { trailer_bytes ≤ length b.now }
    ensures { result ≡ out_of_bundle b.now }
{
    b.len() < start_distance(b) + fault::TRAILER_BYTES
}

// 12
fn not_admitted(k: usize, b: &[u8]) -> bool
    requires { (k < 256) × (trailer_bytes ≤ length b.now) }
    ensures { result ≡ not_admitted k b.now }
{
    let n = n(b);
    let t = t(b);
    fault::outside(1, MOST_BOARDS, n)
        | (n <= fault::times(k, t))
        | (t < f(b))
        | (MOST_FORM < form(b))
}

// 13
fn steps_off(b: &[u8]) -> bool
    requires { trailer_bytes ≤ length b.now }
    ensures { result ≡ steps_off b.now }
{
    let d = step_distance(b);
    (d % STEP_BYTES != 0) | (MOST_STEP_BYTES < d) | (start_distance(b) != d + correct(b))
}

// 14
fn not_initial(table: &[u8], start: usize) -> bool
    requires { Sized table.now }
    ensures { result ≡ not_initial table.now start }
{
    if table::states(table) <= start {
        return true;
    }
    !table::initial(table, start)
}

fn start_fault(table: &[u8], starts: &[u8], p: usize) -> Result<(), Refusal>
    requires { (Sized table.now) × (p < length starts.now) }
    ensures { code result ≡ start_fault table.now starts.now p }
{
    if not_initial(table, fault::byte_at(starts, p)) {
        Err(Refusal::NotInitial)
    } else {
        Ok(())
    }
}

// The lowest board whose start is at fault.
fn starts_fault(table: &[u8], starts: &[u8]) -> Result<(), Refused>
    requires { Sized table.now }
    ensures { told result ≡ first_fault (start_fault table.now starts.now) (length starts.now) }
{
    lowest(starts.len(), |p| start_fault(table, starts, p))
}
