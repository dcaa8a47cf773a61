// The numbers of the objects that each city object lists, looked up once, in a flat table of rows:
// word k of a table says where the row of the object of number k begins, word k + 1 where it ends.
#![tactic(auto)]

ghost use Rattle.std.specs.Prelude.{length, unwrap_or};
ghost use Rattle.nodes.specs.Says.{Node};
ghost use Rattle.ids.specs.Says.{Objects, Numbered};
ghost use Rattle.rows.specs.Says.{Listed, RoomFor, LinkGives, ListFits, ListGives, RoomForWord, RowsGive};

use ids::{ChainWords, Directory};

// The number of the object that the value at node k names, if it names one.
fn link_number(d: &Directory, k: usize) -> Option<usize>
    requires { (Numbered d.now) × (Node d.now.text.now d.now.table.now k) }
    ensures { LinkGives d.now.text.now d.now.table.now d.now.offsets.now k (unwrap_or result (length d.now.offsets.now)) }
{
    if !nodes::is_string(d.text, d.table, k) {
        return None;
    }
    d.number(k)
}

// Writes the numbers of the objects that the elements of the value at node i name, from word `at` on; gives where they end.
// Where an element names none, the word is the count of the objects.
fn fill_list(d: &Directory, i: usize, rows: &mut [u16], at: usize) -> usize
    requires { (Numbered d.now) × (ListFits d.now.text.now d.now.table.now (Some i) at rows.old) }
    ensures { ListGives d.now.text.now d.now.table.now d.now.offsets.now (Some i) rows.old at rows.new result }
{
    let count = d.offsets.len();
    let mut end = at;
    for k in nodes::elements(d.text, d.table, i) {
        let number = link_number(d, k).unwrap_or(count);
        rows[end] = number as u16;
        end += 1;
    }
    end
}

// The same of what was found. Most objects have no such list.
fn fill_found(d: &Directory, found: Option<usize>, rows: &mut [u16], at: usize) -> usize
    requires { (Numbered d.now) × (ListFits d.now.text.now d.now.table.now found at rows.old) }
    ensures { ListGives d.now.text.now d.now.table.now d.now.offsets.now found rows.old at rows.new result }
{
    let Some(i) = found else {
        return at;
    };
    fill_list(d, i, rows, at)
}

// One table: row k has the numbers of the objects that the object of number k lists under a name.
fn fill_rows(d: &Directory, name: &[u8], rows: &mut [u16])
    requires numbered { Numbered d.now }
    requires room_for_word { RoomForWord d.now.text.now d.now.table.now d.now.offsets.now name.now rows.old }
    ensures { RowsGive d.now.text.now d.now.table.now d.now.offsets.now name.now rows.new }
{
    let count = d.offsets.len();
    let mut at = count + 1;
    for (k, own) in d.offsets.iter().enumerate() {
        rows[k] = at as u16;
        let found = nodes::member(d.text, d.table, *own + 3, name);
        at = fill_found(d, found, rows, at);
    }
    rows[count] = at as u16;
}

// The rows of the children and of the parents of all objects, whose chains are filled.
fn fill_both(d: &Directory, children: &mut [u16], parents: &mut [u16])
    requires numbered { Numbered d.now }
    requires room_for { RoomFor d.now.text.now d.now.table.now d.now.offsets.now "children" children.old }
    requires room_for_2 { RoomFor d.now.text.now d.now.table.now d.now.offsets.now "parents" parents.old }
    ensures listed { Listed d.now.text.now d.now.table.now d.now.offsets.now "children" children.new }
    ensures listed_2 { Listed d.now.text.now d.now.table.now d.now.offsets.now "parents" parents.new }
{
    fill_rows(d, b"children", children);
    fill_rows(d, b"parents", parents);
}

// The rows of the children and of the parents of all objects.
pub fn fill(
    text: &[u8],
    table: &[u32],
    offsets: &[usize],
    children: &mut [u16],
    parents: &mut [u16],
)
    requires objects { Objects text.now table.now offsets.now }
    requires room_for { RoomFor text.now table.now offsets.now "children" children.old }
    requires room_for_2 { RoomFor text.now table.now offsets.now "parents" parents.old }
    ensures listed { Listed text.now table.now offsets.now "children" children.new }
    ensures listed_2 { Listed text.now table.now offsets.now "parents" parents.new }
{
    let mut chains = ChainWords {
        heads: [0; 4096],
        nexts: [0; 1024],
    };
    chains.fill(text, table, offsets);
    let d = Directory {
        text,
        table,
        offsets,
        chains: &chains,
    };
    fill_both(&d, children, parents);
}
