// A table's drawing, written into lent bytes so far as they reach; what does not fit is counted too.
#![tactic(auto)]

ghost use Rattle.std.specs.Prelude.{◌≡◌, ◌++◌, ◌+◌, ◌*◌, ◌≤◌, ◌<◌, length};
ghost use Rattle.table.specs.Table.{states_of, rules_of, types_byte, factor_of, rule_at, state_bytes};
ghost use Rattle.table.specs.Facts.{Sized};
ghost use Rattle.decimal.specs.Numbers.{decimal, spelling};
ghost use Rattle.decimal.specs.Numbers as numbers;
ghost use Rattle.dot.specs.Text.{head_text, joint_at, numbers_text, state_text, rule_text, states_text, rules_text, drawing_of};
ghost use Rattle.ink.specs.Ink.{places, stored, Put};
ghost use Rattle.pen.specs.Pen.{alone, labelled, weights_text, most_head_text, most_state_text, most_weights_text, most_rule_text, most_states_text, most_rules_text, most_drawing};

use dot::Shape;

// The drawing of a table that was read, so far as it fits; and how many bytes it has.
pub fn write(table: &[u8], out: &mut [u8]) -> usize
    requires { Sized table.now }
    ensures { (result ≡ length (drawing_of table.now)) × (result ≤ most_drawing) × (out.new ≡ stored out.old 0 (drawing_of table.now)) }
{
    let n = put_head(out, 0, table);
    let n = put_states(out, n, table);
    let n = put_rules(out, n, table);
    ink::put_all(out, n, b"\n}\n")
}

// The head at n, up to the line feed before the first state; and the place after it.
fn put_head(out: &mut [u8], n: usize, table: &[u8]) -> usize
    requires { (n + most_head_text ≤ places) × Sized table.now }
    ensures { Put out.old n (alone (head_text (types_byte table.now) (factor_of table.now))) result out.new × (result ≤ n + most_head_text) }
{
    let n = put_numbered(out, n, b"digraph t {\nT=", table::types_byte(table));
    let n = put_numbered(out, n, b"; k=", table::factor(table));
    ink::put_all(out, n, b";")
}

// The lines of all states at n; and the place after them.
fn put_states(out: &mut [u8], n: usize, table: &[u8]) -> usize
    requires { (n + most_states_text ≤ places) × Sized table.now }
    ensures { Put out.old n (alone (states_text (states_of table.now) table.now 0)) result out.new × (result ≤ n + most_states_text) }
{
    let mut m = n;
    for i in 0..table::states(table) {
        m = put_state(out, m, table, i);
    }
    m
}

// The line of state i at n, and the place after it.
fn put_state(out: &mut [u8], n: usize, table: &[u8], i: usize) -> usize
    requires { (n + most_state_text ≤ places) × Sized table.now × (i < states_of table.now) }
    ensures { Put out.old n (alone (state_text table.now i)) result out.new × (result ≤ n + most_state_text) }
{
    let n = put_numbered(out, n, b"\ns", i);
    put_label(
        out,
        n,
        table,
        table::STATE_BYTES * i,
        table::STATE_BYTES,
        dot::of_state(),
    )
}

// The lines of all rules at n; and the place after them.
fn put_rules(out: &mut [u8], n: usize, table: &[u8]) -> usize
    requires { (n + most_rules_text ≤ places) × Sized table.now }
    ensures { Put out.old n (alone (rules_text (rules_of table.now) (types_byte table.now) table.now (state_bytes * states_of table.now))) result out.new × (result ≤ n + most_rules_text) }
{
    let mut m = n;
    for k in 0..table::rules(table) {
        m = put_rule(out, m, table, k);
    }
    m
}

// The line of rule k at n, and the place after it.
fn put_rule(out: &mut [u8], n: usize, table: &[u8], k: usize) -> usize
    requires { (n + most_rule_text ≤ places) × Sized table.now × (k < rules_of table.now) }
    ensures { Put out.old n (alone (rule_text (types_byte table.now) table.now (rule_at table.now k))) result out.new × (result ≤ n + most_rule_text) }
{
    let n = put_numbered(out, n, b"\ns", table::from(table, k));
    let n = put_numbered(out, n, b" -> s", table::to(table, k));
    put_weights(out, n, table, k)
}

// The label of rule k at n, and the place after it.
fn put_weights(out: &mut [u8], n: usize, table: &[u8], k: usize) -> usize
    requires { (n + most_weights_text ≤ places) × Sized table.now × (k < rules_of table.now) }
    ensures { Put out.old n (alone (weights_text table.now k)) result out.new × (result ≤ n + most_weights_text) }
{
    let at = table::rule_at(table, k) + layout::END_BYTES;
    let byte = table::types_byte(table);
    put_label(
        out,
        n,
        table,
        at,
        layout::weight_bytes(byte),
        dot::of_rule(byte),
    )
}

// A label of g numbers at n, which are the table's bytes from `at` on; and the place after it.
fn put_label(out: &mut [u8], n: usize, table: &[u8], at: usize, g: usize, shape: Shape) -> usize
    requires { (n + 6 * g + 12 ≤ places) × (at + g ≤ length table.now) × (1 ≤ shape.group) }
    ensures { Put out.old n (alone (labelled shape g table.now at)) result out.new × (result ≤ n + 6 * g + 12) }
{
    let n = ink::put_all(out, n, b" [label=\"");
    let n = put_numbers(out, n, table, at, g, shape);
    ink::put_all(out, n, b"\"];")
}

// The g numbers of a label at n, from the first on; and the place after them.
fn put_numbers(out: &mut [u8], n: usize, table: &[u8], at: usize, g: usize, shape: Shape) -> usize
    requires { (n + 6 * g ≤ places) × (at + g ≤ length table.now) × (1 ≤ shape.group) }
    ensures { Put out.old n (alone (numbers_text shape g 0 table.now at)) result out.new × (result ≤ n + 6 * g) }
{
    // The place of number j in its group.
    let mut i = 0;
    let mut m = n;
    for j in 0..g {
        let b = fault::byte_at(table, at + j);
        m = put_number(out, m, j, i, b, i < shape.signed);
        i = dot::next(i, shape.group);
    }
    m
}

// The number j of a label, at place i of its group, at n, with what joins it to the one before; and the place after it.
fn put_number(out: &mut [u8], n: usize, j: usize, i: usize, b: usize, signed: bool) -> usize
    requires { (n + 6 ≤ places) × (b < 256) }
    ensures { Put out.old n (joint_at j i ++ spelling signed b) result out.new × (result ≤ n + 6) }
{
    let n = put_joint(out, n, j, i);
    put_spelt(out, n, b, signed)
}

// What stands before the number j of a label, at place i of its group, at n; and the place after it.
fn put_joint(out: &mut [u8], n: usize, j: usize, i: usize) -> usize
    requires { n + 2 ≤ places }
    ensures { Put out.old n (joint_at j i) result out.new × (result ≤ n + 2) }
{
    if j == 0 {
        return n;
    }
    if i == 0 {
        return ink::put_all(out, n, b", ");
    }
    ink::put_all(out, n, b" ")
}

// The number that a byte is in a label, at n; and the place after it.
fn put_spelt(out: &mut [u8], n: usize, b: usize, signed: bool) -> usize
    requires { (n + 4 ≤ places) × (b < 256) }
    ensures { Put out.old n (spelling signed b) result out.new × (result ≤ n + 4) }
{
    if signed {
        return put_signed(out, n, b);
    }
    put_decimal(out, n, b)
}

// A byte as a number from −128 to 127, at n; and the place after it.
fn put_signed(out: &mut [u8], n: usize, b: usize) -> usize
    requires { (n + 4 ≤ places) × (b < 256) }
    ensures { Put out.old n (numbers.signed b) result out.new × (result ≤ n + 4) }
{
    if b < 128 {
        return put_decimal(out, n, b);
    }
    let m = ink::put(out, n, b'-');
    put_decimal(out, m, 256 - b)
}

// A word at n with a number behind it, and the place after both.
fn put_numbered(out: &mut [u8], n: usize, word: &[u8], v: usize) -> usize
    requires { (n + length word.now + 3 ≤ places) × (v < 256) }
    ensures { Put out.old n (word.now ++ decimal v) result out.new × (result ≤ n + length word.now + 3) }
{
    let n = ink::put_all(out, n, word);
    put_decimal(out, n, v)
}

// A number of up to three digits at n, and the place after it.
fn put_decimal(out: &mut [u8], n: usize, v: usize) -> usize
    requires { (n + 3 ≤ places) × (v < 256) }
    ensures { Put out.old n (decimal v) result out.new × (result ≤ n + 3) }
{
    if v < 10 {
        return ink::put(out, n, digit(v));
    }
    if v < 100 {
        let n = ink::put(out, n, digit(v / 10));
        return ink::put(out, n, digit(v % 10));
    }
    let n = ink::put(out, n, digit(v / 100));
    let n = ink::put(out, n, digit(v / 10 % 10));
    ink::put(out, n, digit(v % 10))
}

fn digit(v: usize) -> u8
    requires { v < 10 }
    ensures { result ≡ 48 + v }
{
    (48 + v) as u8
}
