// Checks of a boundary and of the values over it: the shape of nested arrays (rule 12) and the range of their integers (rule 13).
// Each takes the least fault so far and gives the least.
#![tactic(auto)]

ghost use Rattle.std.specs.Prelude.{◌||◌, ◌++◌};
ghost use Rattle.nodes.specs.Access.{is_null_value};
ghost use Rattle.nodes.specs.Faults.{least};
ghost use Rattle.nodes.specs.Says.{Node, Gives};
ghost use Rattle.shapes.specs.Shapes.{is_integer_value};
ghost use Rattle.shapes.specs.Shapes as shape;
ghost use Rattle.shapes.specs.Says.{Clears};
ghost use Rattle.boundaries.specs.Says as says;
ghost use Rattle.boundaries.specs.Says.{Nodes, GivesTwo};

// Rule 12: arrays down to the depth, where integers stand.
pub fn shaped(text: &[u8], table: &[u32], i: usize, depth: usize, best: u32) -> u32
    requires { Node text.now table.now i }
    ensures { Gives (λ v. least best (shape.shaped depth v)) text.now table.now i result }
{
    if depth == 0 {
        return shapes::unless(shapes::is_integer(text, table, i), 12, text, table, i, best);
    }
    if !nodes::is_array(text, table, i) {
        return shapes::unless(false, 12, text, table, i, best);
    }
    let mut least = best;
    for k in nodes::elements(text, table, i) {
        least = shaped(text, table, k, depth - 1, least);
    }
    least
}

// Rule 13: an integer is at least 0 and below the count.
fn below(text: &[u8], table: &[u32], i: usize, count: usize, best: u32) -> u32
    requires { Node text.now table.now i }
    ensures { Gives (λ v. least best (shape.ranged count 0 v)) text.now table.now i result }
{
    if !nodes::is_number(text, table, i) {
        return best;
    }
    shapes::unless(
        numerals::is_below(text, nodes::start(table, i), nodes::end(table, i), count),
        13,
        text,
        table,
        i,
        best,
    )
}

// Rule 13: each integer at that depth is at least 0 and below the count.
pub fn ranged(text: &[u8], table: &[u32], i: usize, depth: usize, count: usize, best: u32) -> u32
    requires { Node text.now table.now i }
    ensures { Gives (λ v. least best (shape.ranged count depth v)) text.now table.now i result }
{
    if depth == 0 {
        return below(text, table, i, count, best);
    }
    let mut least = best;
    for k in nodes::elements(text, table, i) {
        least = ranged(text, table, k, depth - 1, count, least);
    }
    least
}

// Is the value a short integer below the count? Then it breaks neither rule 12 nor rule 13.
fn is_ranged(text: &[u8], table: &[u32], i: usize, count: usize) -> bool
    requires { Node text.now table.now i }
    ensures { Clears (λ v. shape.shaped 0 v ++ shape.ranged count 0 v) text.now table.now i result }
{
    if !nodes::is_number(text, table, i) {
        return false;
    }
    numerals::quick(text, nodes::start(table, i), nodes::end(table, i)).is_some_and(|n| n
        < count as u64)
}

// Rules 12 and 13 of what stands at a boundary's last level: an integer, at least 0 and below the count.
fn leaf(text: &[u8], table: &[u32], i: usize, count: usize, best: u32) -> u32
    requires { Node text.now table.now i }
    ensures { Gives (λ v. least best (shape.shaped 0 v ++ shape.ranged count 0 v)) text.now table.now i result }
{
    if is_ranged(text, table, i, count) {
        return best;
    }
    if !shapes::is_integer(text, table, i) {
        return shapes::unless(false, 12, text, table, i, best);
    }
    below(text, table, i, count, best)
}

// Rules 12 and 13 of a boundary: arrays down to the depth, where integers stand, each at least 0 and below the count.
// The integers of an array are looked at in its own loop, not by a call of this function for each.
pub fn boundary(text: &[u8], table: &[u32], i: usize, depth: usize, count: usize, best: u32) -> u32
    requires { Node text.now table.now i }
    ensures { Gives (λ v. least best (shape.shaped depth v ++ shape.ranged count depth v)) text.now table.now i result }
{
    if depth == 0 {
        return leaf(text, table, i, count, best);
    }
    if !nodes::is_array(text, table, i) {
        return shapes::unless(false, 12, text, table, i, best);
    }
    let mut least = best;
    for k in nodes::elements(text, table, i) {
        if depth == 1 {
            least = leaf(text, table, k, count, least);
        } else {
            least = boundary(text, table, k, depth - 1, count, least);
        }
    }
    least
}

// Is the value an integer or null?
fn is_value(text: &[u8], table: &[u32], i: usize) -> bool
    requires { Node text.now table.now i }
    ensures { Gives (λ v. is_integer_value v || is_null_value v) text.now table.now i result }
{
    if nodes::is_null(text, table, i) {
        return true;
    }
    shapes::is_integer(text, table, i)
}

// Is the value at node v an array of as many elements as that at node b has?
fn agree(text: &[u8], table: &[u32], b: usize, v: usize) -> bool
    requires { Nodes text.now table.now b v }
    ensures { GivesTwo says.agree text.now table.now b v result }
{
    if !nodes::is_array(text, table, v) {
        return false;
    }
    nodes::count(text, table, b) == nodes::count(text, table, v)
}

// Rule 12: `values` at node v has the counts of the boundary at node b at each of its levels, and integers or null at the last.
pub fn matches(text: &[u8], table: &[u32], b: usize, v: usize, depth: usize, best: u32) -> u32
    requires { Nodes text.now table.now b v }
    ensures { GivesTwo (λ w u. least best (shape.matches depth w u)) text.now table.now b v result }
{
    if depth == 0 {
        return shapes::unless(is_value(text, table, v), 12, text, table, v, best);
    }
    if !agree(text, table, b, v) {
        return shapes::unless(false, 12, text, table, v, best);
    }
    let mut least = best;
    for (j, k) in nodes::elements(text, table, b).zip(nodes::elements(text, table, v)) {
        least = matches(text, table, j, k, depth - 1, least);
    }
    least
}
