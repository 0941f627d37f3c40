// A drawing line by line. What is read of the table's records is kept in `out`, so far as it fits.
ghost use Rattle.std.specs.Prelude.{◌≡◌, false, ◌+◌, ◌≤◌, ◌<◌, length};
ghost use Rattle.fault.specs.declared.refusals.Refusal.TheVariants.{NoDrawing};
ghost use Rattle.drawing.specs.Lines.{Known, Arrow, Stood, Headed, Closed, Finished, on_lines, on_name, on_state, on_rule};

use crate::{Cursor, Reader, pieces};
use fault::refusals::{Refusal, Refused};

// The whole text.
pub fn read(text: &[u8], out: &mut [u8]) -> Result<Reader, Refused>
    ensures { (Finished text.now result out.new) × (length out.new ≡ length out.old) }
{
    let mut g = header(text)?;
    while !g.ended {
        g = line(text, g, out)?;
    }
    Ok(g)
}

// No drawing goes on there.
fn no_drawing(place: usize) -> Refused
    ensures { result ≡ record { refusal = NoDrawing; place = place } }
{
    Refused {
        refusal: Refusal::NoDrawing,
        place,
    }
}

// From the text's first byte to the first line.
fn header(text: &[u8]) -> Result<Reader, Refused>
    ensures { Headed text.now result }
{
    let a = pieces::follow(text, pieces::stand(0), b"~digraph_~t~{~T~=~");
    let types = pieces::number(text, a, false);
    let b = pieces::follow(text, types, b"~;~k~=~");
    let factor = pieces::number(text, b, false);
    let c = pieces::follow(text, factor, b"~;");
    if c.stuck {
        return Err(no_drawing(c.place));
    }
    Ok(Reader {
        place: c.place,
        ended: false,
        types: types.value,
        factor: factor.value,
        states: 0,
        rules: 0,
        made: 0,
    })
}

// One line, or the end.
fn line(text: &[u8], g: Reader, out: &mut [u8]) -> Result<Reader, Refused>
    requires { (g.place ≤ length text.now) × (g.ended ≡ false) × (Known text.now g out.old (on_lines text.now g)) }
    ensures { Stood text.now g.place result out.new }
{
    let at = pieces::skip(text, g.place);
    if decimal::peek(text, at) == 125 {
        return end(text, g, at + 1);
    }
    let s = pieces::follow(text, pieces::stand(at), b"s");
    let name = pieces::number(text, s, false);
    let c = pieces::follow(text, name, b"~");
    if c.stuck {
        return Err(no_drawing(c.place));
    }
    named(text, g, c.place, name.value, out)
}

// After the closing bracket only blanks may follow.
fn end(text: &[u8], g: Reader, i: usize) -> Result<Reader, Refused>
    requires { (i ≤ length text.now) × (g.place + 1 ≤ i) }
    ensures { Closed text.now g i result }
{
    let at = pieces::skip(text, i);
    if at < text.len() {
        return Err(no_drawing(at));
    }
    Ok(Reader {
        place: at,
        ended: true,
        ..g
    })
}

// A line whose first name is v: of a state, if that is the next and no rule came, or of a rule.
fn named(text: &[u8], g: Reader, i: usize, v: usize, out: &mut [u8]) -> Result<Reader, Refused>
    requires { (i ≤ length text.now) × (g.place + 1 ≤ i) × (v < 256) × (Known text.now g out.old (on_name text.now i v)) }
    ensures { Stood text.now g.place result out.new }
{
    let x = decimal::peek(text, i);
    if (x == 91) & ((v == g.states) & (g.rules == 0)) {
        return state_line(text, g, i + 1, v, out);
    }
    if x == 45 {
        return rule_line(text, g, i + 1, v, out);
    }
    Err(no_drawing(i))
}

// The rest of a state's line, after the bracket.
fn state_line(text: &[u8], g: Reader, i: usize, v: usize, out: &mut [u8]) -> Result<Reader, Refused>
    requires { (i ≤ length text.now) × (g.place + 1 ≤ i) × (Known text.now g out.old (on_state text.now i v)) }
    ensures { Stood text.now g.place result out.new }
{
    let c = pieces::label(
        text,
        pieces::stand(i),
        table::STATE_BYTES,
        dot::of_state(),
        out,
        g.made,
    );
    if c.stuck {
        return Err(no_drawing(c.place));
    }
    Ok(Reader {
        place: c.place,
        ended: false,
        states: g.states + 1,
        made: g.made + table::STATE_BYTES,
        ..g
    })
}

// The rest of a rule's line, after the minus of its arrow.
fn rule_line(text: &[u8], g: Reader, i: usize, v: usize, out: &mut [u8]) -> Result<Reader, Refused>
    requires { (i ≤ length text.now) × (g.place + 1 ≤ i) × (v < 256) × (Known text.now g out.old (on_rule text.now i v)) }
    ensures { Stood text.now g.place result out.new }
{
    let to = ends(text, i, v, out, g.made);
    let b = pieces::follow(text, to, b"~[");
    let weights = layout::weight_bytes(g.types);
    let c = pieces::label(
        text,
        b,
        weights,
        dot::of_rule(g.types),
        out,
        g.made + layout::END_BYTES,
    );
    if c.stuck {
        return Err(no_drawing(c.place));
    }
    Ok(Reader {
        place: c.place,
        ended: false,
        rules: g.rules + 1,
        made: g.made + layout::END_BYTES + weights,
        ..g
    })
}

// The rest of an arrow and the name it leads to; the two names' numbers are put at n.
fn ends(text: &[u8], i: usize, v: usize, out: &mut [u8], n: usize) -> Cursor
    requires { (i ≤ length text.now) × (v < 256) × (n ≤ 9223372036854775808) }
    ensures { Arrow text.now i v result n out.old out.new }
{
    let a = pieces::follow(text, pieces::stand(i), b">~s");
    let to = pieces::number(text, a, false);
    let m = ink::put(out, n, pieces::byte(v));
    ink::put(out, m, pieces::byte(to.value));
    to
}
