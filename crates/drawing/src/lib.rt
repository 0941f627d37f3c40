// Drawings of a table: written from its bytes, and read back to them.
#![tactic(auto)]

ghost use Rattle.std.specs.Prelude.{◌≡◌, ◌≤◌, ◌<◌, length};
ghost use Rattle.fault.specs.Refusals.{answer_of};
ghost use Rattle.ink.specs.Ink.{stored};
ghost use Rattle.layout.specs.Layout.{types_in};
ghost use Rattle.table.specs.Table.{most_records, most_table};
ghost use Rattle.table.specs.Refusals.{counts_outside, table_fault};
ghost use Rattle.table.specs.Facts.{CountsFit};
ghost use Rattle.ink.specs.Ink.{given, left};
ghost use Rattle.trailer.specs.Trailer.{trailer_for};
ghost use Rattle.drawing.specs.Entry.{draw_answer, draw_bytes, undraw_answer, undraw_bytes};

use fault::Answer;
use fault::refusals::{Refusal, Refused};

pub mod pieces; // a text read piece by piece
pub mod lines; // and line by line

// Where reading stands: at which byte, whether no drawing goes on there, and the number read last.
// Stays: `pieces::follow`, `number` and `label` take a cursor that is stuck and say what reading comes to from there; with a Result and ? they would ask for a free one.
#[derive(Clone, Copy)]
pub struct Cursor {
    pub place: usize,
    pub stuck: bool,
    pub value: usize,
}

// What has been read up to the end of a line: its counts, the types byte for that of types, and how many bytes of the table's records.
#[derive(Clone, Copy)]
pub struct Reader {
    pub place: usize,
    pub ended: bool,
    pub types: usize,
    pub factor: usize,
    pub states: usize,
    pub rules: usize,
    pub made: usize,
}

// Writes a table's drawing into the lent bytes: refusal, place, bytes written.
pub fn draw(table: &[u8], out: &mut [u8]) -> Answer
    ensures value { result ≡ draw_answer table.now (length out.old) }
    ensures out_after { out.new ≡ draw_bytes table.now out.old }
{
    Answer::from(drawn(table, out))
}

fn drawn(table: &[u8], out: &mut [u8]) -> Result<usize, Refused>
    ensures value { answer_of result ≡ draw_answer table.now (length out.old) }
    ensures out_after { out.new ≡ draw_bytes table.now out.old }
{
    table::table_fault(table)?;
    // Into no bytes: only to learn how many there are.
    let n = pen::write(table, &mut out[..0]);
    if out.len() < n {
        return Err(Refusal::DrawingShort.at(0));
    }
    pen::write(table, out);
    Ok(n)
}

// Writes the table that a text draws into the lent bytes: refusal, place, bytes written.
pub fn undraw(text: &[u8], out: &mut [u8]) -> Answer
    ensures value { result ≡ undraw_answer text.now (length out.old) }
    ensures out_after { out.new ≡ undraw_bytes text.now out.old }
{
    let mut table = [0u8; table::MOST_BYTES];
    Answer::from(undraw_in(text, &mut table, out))
}

// The same, with room for the largest table.
fn undraw_in(text: &[u8], table: &mut [u8], out: &mut [u8]) -> Result<usize, Refused>
    requires { length table.old ≡ most_table }
    ensures value { answer_of result ≡ undraw_answer text.now (length out.old) }
    ensures out_after { out.new ≡ undraw_bytes text.now out.old }
{
    let g = lines::read(text, table)?;
    if counts_outside(g) {
        return Err(Refusal::CountsOutside.at(0));
    }
    close(g, table);
    let n = g.made + fault::TRAILER_BYTES;
    give(&table[..n], out)
}

// Is one of the four counts none that a table has?
fn counts_outside(g: Reader) -> bool
    requires { g.types < 256 }
    ensures { result ≡ counts_outside g.states g.rules (types_in g.types) g.factor }
{
    let types = layout::types_in(g.types);
    table::counts_outside(g.states, g.rules, types, g.factor)
}

// The trailer after the records.
fn close(g: Reader, table: &mut [u8])
    requires { (CountsFit g.states g.rules (types_in g.types) g.factor) × (g.types < 256) × (g.made ≤ most_records) }
    ensures { table.new ≡ stored table.old g.made (trailer_for g.states g.rules g.types g.factor) }
{
    trailer::put(table, g.made, g.states, g.rules, g.types, g.factor);
}

// The table into the lent bytes, if it is one and has room there.
fn give(table: &[u8], out: &mut [u8]) -> Result<usize, Refused>
    ensures value { answer_of result ≡ given 61 (table_fault table.now) table.now (length out.old) }
    ensures out_after { out.new ≡ left (table_fault table.now) table.now out.old }
{
    table::table_fault(table)?;
    if out.len() < table.len() {
        return Err(Refusal::DrawingShort.at(0));
    }
    ink::put_all(out, 0, table);
    Ok(table.len())
}
