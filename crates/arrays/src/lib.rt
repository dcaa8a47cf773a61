// Writes the numbers and the nested arrays of an accepted text to a lent sheet.
// If they do not fit, a part of them may be written, and the cursor is then past the sheet.
// Each function takes the cursor at which it is to write and gives the one after.
#![tactic(auto)]

ghost use Rattle.utf8.specs.Bytes.{le};
ghost use Rattle.model.specs.Code.{signed, concat_map};
ghost use Rattle.model.specs.Model.{lay_three, lay_decimal, lay_nest, lay_value, lay_values};
ghost use Rattle.model.specs.Read.{decimal_of, integer_of, index_of, value_of, three_of, nest_of};
ghost use Rattle.nodes.specs.Access.{elements};
ghost use Rattle.nodes.specs.Says.{Node, Gives};
ghost use Rattle.arrays.specs.Fits.{Pair, Coordinate, Index, Value, Elements, Triple, Leaves};
ghost use Rattle.arrays.specs.Says.{Holds, Wrote};

// A transform number: its pair.
fn pair(text: &[u8], table: &[u32], i: usize, sheet: &mut [u8], at: usize) -> usize
    requires { Holds Pair text.now table.now i }
    ensures { Wrote (λ v. lay_decimal (decimal_of v)) text.now table.now i sheet.old sheet.new at result }
{
    match shapes::pair(text, table, i) {
        Ok((m, e)) => {
            let middle = writer::put8(sheet, at, writer::bits(m));
            writer::put2(sheet, middle, writer::bits(e))
        }
        Err(_) => at,
    }
}

// `scale` or `translate`: three pairs.
pub fn pairs(text: &[u8], table: &[u32], i: usize, sheet: &mut [u8], at: usize) -> usize
    requires { Holds (Triple Pair) text.now table.now i }
    ensures { Wrote (λ v. lay_three lay_decimal (three_of decimal_of v)) text.now table.now i
        sheet.old sheet.new at result }
{
    let mut o = at;
    for k in nodes::elements(text, table, i) {
        o = pair(text, table, k, sheet, o);
    }
    o
}

// A coordinate in four bytes.
fn coordinate(text: &[u8], table: &[u32], i: usize, sheet: &mut [u8], at: usize) -> usize
    requires { Holds Coordinate text.now table.now i }
    ensures { Wrote (λ v. signed 4 (integer_of v)) text.now table.now i sheet.old sheet.new at result }
{
    let from = nodes::start(table, i);
    let to = nodes::end(table, i);
    match numerals::quick(text, from, to) {
        Some(n) => writer::put4(sheet, at, n),
        None => writer::put4(sheet, at, writer::bits(numerals::small(text, from, to))),
    }
}

// A vertex: three coordinates.
fn vertex(text: &[u8], table: &[u32], i: usize, sheet: &mut [u8], at: usize) -> usize
    requires { Holds (Triple Coordinate) text.now table.now i }
    ensures { Wrote (λ v. lay_three (signed 4) (three_of integer_of v)) text.now table.now i
        sheet.old sheet.new at result }
{
    let mut o = at;
    for k in nodes::elements(text, table, i) {
        o = coordinate(text, table, k, sheet, o);
    }
    o
}

// The vertices, one after the other.
pub fn vertices(text: &[u8], table: &[u32], i: usize, sheet: &mut [u8], at: usize) -> usize
    requires { Holds (Elements (Triple Coordinate)) text.now table.now i }
    ensures { Wrote (λ v. concat_map (λ w. lay_three (signed 4) (three_of integer_of w)) (elements v)) text.now table.now i
        sheet.old sheet.new at result }
{
    let mut o = at;
    for k in nodes::elements(text, table, i) {
        o = vertex(text, table, k, sheet, o);
    }
    o
}

// The value of an index.
fn index_of(text: &[u8], table: &[u32], i: usize) -> u64
    requires { Holds Index text.now table.now i }
    ensures { Gives index_of text.now table.now i result }
{
    let from = nodes::start(table, i);
    let to = nodes::end(table, i);
    match numerals::quick(text, from, to) {
        Some(n) => n,
        None => numerals::integer(text, from, to).magnitude,
    }
}

// An index in four bytes.
fn index(text: &[u8], table: &[u32], i: usize, sheet: &mut [u8], at: usize) -> usize
    requires { Holds Index text.now table.now i }
    ensures { Wrote (λ v. le 4 (index_of v)) text.now table.now i sheet.old sheet.new at result }
{
    writer::put4(sheet, at, index_of(text, table, i))
}

// A boundary of that depth: each array as its count and its elements. The count is written last, at the place that was kept for it.
// The indices of an array are written in its own loop, not by a call of this function for each.
pub fn boundary(
    text: &[u8],
    table: &[u32],
    i: usize,
    depth: usize,
    sheet: &mut [u8],
    at: usize,
) -> usize
    requires { Holds (Leaves Index depth) text.now table.now i }
    ensures { Wrote (λ v. lay_nest depth (nest_of index_of depth v)) text.now table.now i
        sheet.old sheet.new at result }
{
    if depth == 0 {
        return index(text, table, i, sheet, at);
    }
    let first = writer::skip(at, 4);
    let mut count: u64 = 0;
    let mut o = first;
    for k in nodes::elements(text, table, i) {
        if depth == 1 {
            o = index(text, table, k, sheet, o);
        } else {
            o = boundary(text, table, k, depth - 1, sheet, o);
        }
        count += 1;
    }
    writer::put4(sheet, at, count);
    o
}

// A semantic value in four bytes: FFFFFFFF hexadecimal for null.
fn value(text: &[u8], table: &[u32], i: usize, sheet: &mut [u8], at: usize) -> usize
    requires { Holds Value text.now table.now i }
    ensures { Wrote (λ v. lay_value (value_of v)) text.now table.now i sheet.old sheet.new at result }
{
    if nodes::is_null(text, table, i) {
        return writer::put4(sheet, at, 0xffff_ffff);
    }
    index(text, table, i, sheet, at)
}

// Values of that depth, one after the other.
pub fn values(
    text: &[u8],
    table: &[u32],
    i: usize,
    depth: usize,
    sheet: &mut [u8],
    at: usize,
) -> usize
    requires { Holds (Leaves Value depth) text.now table.now i }
    ensures { Wrote (λ v. lay_values depth (nest_of value_of depth v)) text.now table.now i
        sheet.old sheet.new at result }
{
    if depth == 0 {
        return value(text, table, i, sheet, at);
    }
    let mut o = at;
    for k in nodes::elements(text, table, i) {
        o = values(text, table, k, depth - 1, sheet, o);
    }
    o
}
