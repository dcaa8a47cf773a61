// Checks of a value of the node table: its kind (rule 7), a member that it needs (rule 8), and the shape and the range of transforms and vertices
// (rules 12 and 13). Each takes the least fault so far and gives the least.
#![tactic(auto)]

ghost use Rattle.std.specs.Prelude.{◌<◌, true, ◌++◌};
ghost use Rattle.nodes.specs.Access.{is_number_value, is_array_value, elements};
ghost use Rattle.nodes.specs.Faults.{least};
ghost use Rattle.nodes.specs.Says.{Node, Sought, Gives};
ghost use Rattle.shapes.specs.Checks.{object_kind, string_kind, number_kind, array_kind, each_element};
ghost use Rattle.shapes.specs.Checks as checks;
ghost use Rattle.shapes.specs.Shapes.{is_integer_value, all_integers, three_entries, pair_range, is_triple};
ghost use Rattle.shapes.specs.Shapes as shape;
ghost use Rattle.shapes.specs.Says.{GivesPair, Needs, Clears, IsSmall};

// The fault of a rule at a node, unless it is kept there.
pub fn unless(kept: bool, rule: u32, text: &[u8], table: &[u32], i: usize, best: u32) -> u32
    requires { (Node text.now table.now i) × (rule < 18) }
    ensures { Gives (λ v. least best (checks.unless kept rule v)) text.now table.now i result }
{
    if kept {
        return best;
    }
    nodes::lesser(best, nodes::fault_at(rule, nodes::start(table, i)))
}

// Rule 7: an object, a string, a number, an array.
pub fn object(text: &[u8], table: &[u32], i: usize, best: u32) -> u32
    requires { Node text.now table.now i }
    ensures { Gives (λ v. least best (object_kind v)) text.now table.now i result }
{
    unless(nodes::is_object(text, table, i), 7, text, table, i, best)
}

pub fn string(text: &[u8], table: &[u32], i: usize, best: u32) -> u32
    requires { Node text.now table.now i }
    ensures { Gives (λ v. least best (string_kind v)) text.now table.now i result }
{
    unless(nodes::is_string(text, table, i), 7, text, table, i, best)
}

fn number(text: &[u8], table: &[u32], i: usize, best: u32) -> u32
    requires { Node text.now table.now i }
    ensures { Gives (λ v. least best (number_kind v)) text.now table.now i result }
{
    unless(nodes::is_number(text, table, i), 7, text, table, i, best)
}

pub fn array(text: &[u8], table: &[u32], i: usize, best: u32) -> u32
    requires { Node text.now table.now i }
    ensures { Gives (λ v. least best (array_kind v)) text.now table.now i result }
{
    unless(nodes::is_array(text, table, i), 7, text, table, i, best)
}

// Rule 8: a member was found in the object at a node, if it is one.
pub fn need(found: Option<usize>, text: &[u8], table: &[u32], i: usize, best: u32) -> u32
    requires { (Node text.now table.now i) × (Sought text.now table.now found) }
    ensures { Needs text.now table.now found i best result }
{
    let Some(_) = found else {
        return unless(!nodes::is_object(text, table, i), 8, text, table, i, best);
    };
    best
}

// Is the value a numeral that is an integer?
pub fn is_integer(text: &[u8], table: &[u32], i: usize) -> bool
    requires { Node text.now table.now i }
    ensures { Gives is_integer_value text.now table.now i result }
{
    if !nodes::is_number(text, table, i) {
        return false;
    }
    numerals::is_integer(text, nodes::start(table, i), nodes::end(table, i))
}

// Rule 12: `scale` and `translate` hold three numbers.
fn three(text: &[u8], table: &[u32], i: usize, best: u32) -> u32
    requires { Node text.now table.now i }
    ensures { Gives (λ v. least best (three_entries v)) text.now table.now i result }
{
    if !nodes::is_array(text, table, i) {
        return best;
    }
    unless(nodes::count(text, table, i) == 3, 12, text, table, i, best)
}

// The pair of the number at a node, or the fault of rule 13 where it cannot be read as one.
pub fn pair(text: &[u8], table: &[u32], i: usize) -> Result<(i64, i64), u32>
    requires { (Node text.now table.now i) × (Gives is_number_value text.now table.now i true) }
    ensures { GivesPair text.now table.now i result }
{
    let from = nodes::start(table, i);
    let Some(pair) = numerals::pair(text, from, nodes::end(table, i)) else {
        return Err(nodes::fault_at(13, from));
    };
    Ok(pair)
}

// Rule 13: a transform number is a pair in range.
fn pair_range(text: &[u8], table: &[u32], i: usize, best: u32) -> u32
    requires { Node text.now table.now i }
    ensures { Gives (λ v. least best (pair_range v)) text.now table.now i result }
{
    if !nodes::is_number(text, table, i) {
        return best;
    }
    match pair(text, table, i) {
        Ok(_) => best,
        Err(fault) => nodes::lesser(best, fault),
    }
}

// Rules 7 and 13 of each entry of `scale` or `translate`.
fn entries(text: &[u8], table: &[u32], i: usize, best: u32) -> u32
    requires { Node text.now table.now i }
    ensures { Gives (λ v. least best (each_element number_kind v ++ each_element pair_range v)) text.now table.now i result }
{
    let mut least = best;
    for k in nodes::elements(text, table, i) {
        least = number(text, table, k, least);
        least = pair_range(text, table, k, least);
    }
    least
}

// `scale` or `translate`: an array (7) of numbers (7), three of them (12), each a pair in range (13).
pub fn three_pairs(text: &[u8], table: &[u32], i: usize, best: u32) -> u32
    requires { Node text.now table.now i }
    ensures { Gives (λ v. least best (array_kind v ++ each_element number_kind v ++ three_entries v ++ each_element pair_range v))
        text.now table.now i result }
{
    let kind = array(text, table, i, best);
    let shape = three(text, table, i, kind);
    entries(text, table, i, shape)
}

// Are all elements of an array integers?
fn all_integers(text: &[u8], table: &[u32], i: usize) -> bool
    requires { Node text.now table.now i }
    ensures { Gives (λ v. all_integers (elements v)) text.now table.now i result }
{
    for k in nodes::elements(text, table, i) {
        if !is_integer(text, table, k) {
            return false;
        }
    }
    true
}

// Is the value an array of three integers?
fn is_triple(text: &[u8], table: &[u32], i: usize) -> bool
    requires { Node text.now table.now i }
    ensures { Gives is_triple text.now table.now i result }
{
    if !nodes::is_array(text, table, i) {
        return false;
    }
    if nodes::count(text, table, i) != 3 {
        return false;
    }
    all_integers(text, table, i)
}

// Rule 13: a coordinate fits 32 signed bits.
fn coordinate(text: &[u8], table: &[u32], i: usize, best: u32) -> u32
    requires { Node text.now table.now i }
    ensures { Gives (λ v. least best (shape.coordinate v)) text.now table.now i result }
{
    if !nodes::is_number(text, table, i) {
        return best;
    }
    unless(
        numerals::fits_32(text, nodes::start(table, i), nodes::end(table, i)),
        13,
        text,
        table,
        i,
        best,
    )
}

// The coordinates of a vertex.
fn coordinates(text: &[u8], table: &[u32], i: usize, best: u32) -> u32
    requires { Node text.now table.now i }
    ensures { Gives (λ v. least best (each_element shape.coordinate v)) text.now table.now i result }
{
    let mut least = best;
    for k in nodes::elements(text, table, i) {
        least = coordinate(text, table, k, least);
    }
    least
}

// Is the value a short integer?
fn is_small(text: &[u8], table: &[u32], i: usize) -> bool
    requires { Node text.now table.now i }
    ensures { IsSmall text.now table.now i result }
{
    if !nodes::is_number(text, table, i) {
        return false;
    }
    numerals::is_short(text, nodes::start(table, i), nodes::end(table, i))
}

// Is the value an array of three short integers? Then no rule is broken there.
fn is_plain_vertex(text: &[u8], table: &[u32], i: usize) -> bool
    requires { Node text.now table.now i }
    ensures { Clears shape.vertex text.now table.now i result }
{
    if !nodes::is_array(text, table, i) {
        return false;
    }
    if nodes::next(table, i) != i + 12 {
        return false;
    }
    if !is_small(text, table, i + 3) {
        return false;
    }
    if !is_small(text, table, i + 6) {
        return false;
    }
    is_small(text, table, i + 9)
}

// A vertex: an array of three integers (12) that fit 32 signed bits (13).
fn vertex(text: &[u8], table: &[u32], i: usize, best: u32) -> u32
    requires { Node text.now table.now i }
    ensures { Gives (λ v. least best (shape.vertex v)) text.now table.now i result }
{
    if is_plain_vertex(text, table, i) {
        return best;
    }
    if !is_triple(text, table, i) {
        return unless(false, 12, text, table, i, best);
    }
    coordinates(text, table, i, best)
}

// The vertices: an array (7) of vertices.
pub fn vertices(text: &[u8], table: &[u32], i: usize, best: u32) -> u32
    requires { Node text.now table.now i }
    ensures { Gives (λ v. least best (array_kind v ++ each_element shape.vertex v)) text.now table.now i result }
{
    let mut least = array(text, table, i, best);
    for k in nodes::elements(text, table, i) {
        least = vertex(text, table, k, least);
    }
    least
}
