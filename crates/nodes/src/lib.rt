// Nodes of the table of a JSON text: what stands at a node, and what stands below it.
// A fault is a rule with its place as one number; a function that looks for faults takes the least so far and gives the least.
#![tactic(auto)]

ghost use Rattle.std.specs.Prelude.{◌+◌, ◌*◌, ◌<◌, ◌≤◌, min, ◌≡◌, length, get_or};
ghost use Rattle.nodes.specs.Access.{is_null_value, is_number_value, is_string_value, is_array_value, is_object_value, elements, members, first_named};
ghost use Rattle.nodes.specs.Faults.{fault};
ghost use Rattle.nodes.specs.Says.{Node, Gives, Seeks};
ghost use Rattle.nodes.specs.Siblings.{Begins, Elements, Names, CanStep};

// Where what stands at a node starts in the text.
pub fn start(table: &[u32], i: usize) -> usize
    requires { i < length table.now }
    ensures { result ≡ get_or table.now i 0 }
{
    table[i] as usize
}

// Where it ends: one past its last byte.
pub fn end(table: &[u32], i: usize) -> usize
    requires { i + 1 < length table.now }
    ensures { result ≡ get_or table.now (i + 1) 0 }
{
    table[i + 1] as usize
}

// The node after it and all that it holds.
pub fn next(table: &[u32], i: usize) -> usize
    requires { i + 2 < length table.now }
    ensures { result ≡ get_or table.now (i + 2) 0 }
{
    table[i + 2] as usize
}

// The byte that a value starts with, which tells its kind.
fn lead(text: &[u8], table: &[u32], i: usize) -> u8
    requires { Node text.now table.now i }
    ensures { result ≡ get_or text.now (get_or table.now i 0) 0 }
{
    let at = start(table, i);
    text[at]
}

pub fn is_null(text: &[u8], table: &[u32], i: usize) -> bool
    requires { Node text.now table.now i }
    ensures { Gives is_null_value text.now table.now i result }
{
    lead(text, table, i) == b'n'
}

pub fn is_string(text: &[u8], table: &[u32], i: usize) -> bool
    requires { Node text.now table.now i }
    ensures { Gives is_string_value text.now table.now i result }
{
    lead(text, table, i) == b'"'
}

pub fn is_array(text: &[u8], table: &[u32], i: usize) -> bool
    requires { Node text.now table.now i }
    ensures { Gives is_array_value text.now table.now i result }
{
    lead(text, table, i) == b'['
}

pub fn is_object(text: &[u8], table: &[u32], i: usize) -> bool
    requires { Node text.now table.now i }
    ensures { Gives is_object_value text.now table.now i result }
{
    lead(text, table, i) == b'{'
}

pub fn is_number(text: &[u8], table: &[u32], i: usize) -> bool
    requires { Node text.now table.now i }
    ensures { Gives is_number_value text.now table.now i result }
{
    matches!(lead(text, table, i), b'-' | b'0'..=b'9')
}

// The nodes of what stands one after another in the table, from `at` up to `end`: of elements, or of the names of members.
// Each value has `lead` words before it: none, or the three of its name.
#[derive(Clone, Copy)]
pub struct Siblings<'a> {
    pub table: &'a [u32],
    pub at: usize,
    pub end: usize,
    pub lead: usize,
}

impl<'a> Iterator for Siblings<'a> {
    ghost use Rattle.std.specs.Prelude.{◌-◌};
    ghost use Rattle.std.specs.Iterator.{at_most};
    ghost use Rattle.nodes.specs.Siblings.{CanStep, Steps};

    type Item = usize;

    ghost can_next = { CanStep };

    ghost next_gives = { Steps };

    ghost remaining = { λ s. at_most (s.end - s.at) };

    fn next(&mut self) -> Option<usize> {
        let k = self.at;
        if k >= self.end {
            return None;
        }
        self.at = next(self.table, k + self.lead);
        Some(k)
    }
}

// What stands below the node i, if it is such a value that holds something.
fn below(table: &[u32], i: usize, holds: bool, lead: usize) -> Siblings<'_>
    requires { i + 2 < length table.now }
    ensures { Begins table.now i holds lead result }
{
    let at = i + 3;
    let end = if holds { next(table, i) } else { at };
    Siblings {
        table,
        at,
        end,
        lead,
    }
}

// The nodes of the elements of a value: none if it is no array.
pub fn elements<'a>(text: &[u8], table: &'a [u32], i: usize) -> Siblings<'a>
    requires { Node text.now table.now i }
    ensures whole { Elements text.now table.now i result }
    ensures walks { CanStep result }
{
    below(table, i, is_array(text, table, i), 0)
}

// The nodes of the names of a value's members: none if it is no object.
pub fn names<'a>(text: &[u8], table: &'a [u32], i: usize) -> Siblings<'a>
    requires { Node text.now table.now i }
    ensures whole { Names text.now table.now i result }
    ensures walks { CanStep result }
{
    below(table, i, is_object(text, table, i), 3)
}

// How many elements a value has: none if it is no array.
pub fn count(text: &[u8], table: &[u32], i: usize) -> usize
    requires { Node text.now table.now i }
    ensures { Gives (λ v. length (elements v)) text.now table.now i result }
{
    elements(text, table, i).count()
}

// The first member of a value whose name is that word, as decoded: none if it is no object.
pub fn member(text: &[u8], table: &[u32], i: usize, name: &[u8]) -> Option<usize>
    requires { Node text.now table.now i }
    ensures { Seeks (λ v. first_named name.now (members v)) text.now table.now i result }
{
    let keys = names(text, table, i);
    for key in keys {
        let from = start(table, key);
        let to = end(table, key);
        if compare::is_word(text, from + 1, to - 1, name) {
            return Some(key + 3);
        }
    }
    None
}

// Greater than every fault. A number and no Option: `fault` and `least` of specs/Faults.antt are over numbers, and so is each clause on the least so far.
pub const NO_FAULT: u32 = 18 * 65536;

// The lesser of two faults.
pub fn lesser(best: u32, other: u32) -> u32
    ensures { result ≡ min best other }
{
    best.min(other)
}

// A rule with its place.
pub fn fault_at(rule: u32, place: usize) -> u32
    requires { (rule < 18) × (place ≤ 65535) }
    ensures { result ≡ fault rule place }
{
    rule * 65536 + place as u32
}
