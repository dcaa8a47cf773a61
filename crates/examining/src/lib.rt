// Examines a CityJSON text by the rules of docs/RULES.md: what judge and lay have in common.
#![tactic(auto)]

ghost use Rattle.std.specs.Prelude.{◌≡◌, ◌≤◌, ◌<◌};
ghost use Rattle.json_text.specs.Machine.{read};
ghost use Rattle.nodes.specs.Faults.{no_fault};
ghost use Rattle.verdict.specs.Verdict.{parsed, screening};
ghost use Rattle.links.specs.Says.{LinksGive};
ghost use Rattle.refusals.specs.Refusals.{refusal};
ghost use Rattle.examining.specs.Examining.{screened_as, Room, Stands, Opens, RowRoom, Linked, Rows, offsets_of, Examined, RowsOf};

use fields::Index;
use nodes::NO_FAULT;
use refusals::{Broken, Refusal};
use schema::Walked;

// Rules 1 and 2.
pub fn screen(text: &[u8]) -> Result<(), Refusal>
    ensures { screened_as result ≡ screening text.now }
{
    if text.len() > 65535 {
        return Err(Refusal::at(Broken::TooLong, 65535));
    }
    let whole = utf8::whole(text);
    if whole < text.len() {
        return Err(Refusal::at(Broken::NotUtf8, whole));
    }
    Ok(())
}

// Reads a text that is not too long into the node table: the number of its tree's words, or the refusal by rule 3 or 4.
pub fn open(text: &[u8], table: &mut [u32]) -> Result<usize, Refusal>
    requires { Room text.now table.old }
    ensures { Opens text.now table.old table.new result }
{
    Ok(parser::parse(text, table)?)
}

// The offsets of the city objects that an index has.
#[tactic(auto, unfolding(crate::specs::Examining::offsets_of))]
pub fn offsets(index: &Index) -> &[usize]
    requires { index.now.count ≤ 1024 }
    ensures { result.now ≡ offsets_of index.now }
{
    &index.offsets[..index.count]
}

// Rules 15 to 17 of a text of which the index of the city objects is given; the rows of what these list are filled for it. The array is copied here,
// and first of all: the copy's address goes to the calls and the index's own does not, which spares clearings and copies of the index (PROVING.md).
#[tactic(auto, unfolding(crate::specs::Examining::offsets_of))]
fn examine_links(
    text: &[u8],
    table: &[u32],
    index: Index,
    children: &mut [u16],
    parents: &mut [u16],
    best: u32,
) -> u32
    requires { (Linked text.now table.now (offsets_of index)) × (index.count ≤ 1024)
        × (RowRoom text.now table.now children.old) × (RowRoom text.now table.now parents.old) }
    ensures links_give { LinksGive text.now table.now best result }
    ensures rows { Rows text.now table.now (offsets_of index) children.new parents.new }
{
    let all = index.offsets;
    let offsets = &all[..index.count];
    rows::fill(text, table, offsets, children, parents);
    links::links(text, table, offsets, children, parents, best)
}

// The least fault of the rules 5 to 17 of such a text, and the index of its city objects. Every fault is below NO_FAULT.
// If there is none, the rows have what the city objects list. That there is none stays a number: `Examined` promises the `least`
// of nodes' definition `fault`, and the index of a text with a fault too.
pub fn examine(
    text: &[u8],
    table: &[u32],
    n: usize,
    children: &mut [u16],
    parents: &mut [u16],
) -> Walked
    requires { (Stands text.now table.now n) × (RowRoom text.now table.now children.old) × (RowRoom text.now table.now parents.old) }
    ensures examined { Examined text.now table.now result }
    ensures rows_of { RowsOf text.now table.now result children.new parents.new }
{
    let a = everywhere::unpaired(text, table, n, NO_FAULT);
    let b = repeats::repeated(text, table, n, a);
    let walked = schema::root(text, table, b);
    if walked.least < NO_FAULT {
        return walked;
    }
    let least = examine_links(text, table, walked.index, children, parents, walked.least);
    Walked {
        index: walked.index,
        least,
    }
}

// The refusal of a text by the least fault of its tree.
pub fn refuse(text: &[u8], table: &[u32], n: usize, walked: &Walked) -> Refusal
    requires { (Stands text.now table.now n) × (Examined text.now table.now walked.now) × (walked.now.least < no_fault) }
    ensures { refusal result ≡ parsed (read text.now) }
{
    refusals::refuse_fault(table, n, walked.least)
}
