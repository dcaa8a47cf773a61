// Lays out a CityJSON text as a sheet of records.
#![tactic(auto)]

ghost use Rattle.std.specs.Prelude.{◌+◌, ◌*◌, ◌≤◌, ◌≡◌, length};
ghost use Rattle.verdict.specs.Verdict.{parsed};
ghost use Rattle.json_text.specs.Machine.{read};
ghost use Rattle.sheets.specs.Laid.{answer, room_after};
ghost use Rattle.examining.specs.Examining.{Stands, RowRoom};
ghost use Rattle.laying.specs.Laying.{answered, Zeroes, Clean, Lays};

use nodes::NO_FAULT;
use refusals::{Broken, Refusal};

// What lay answers of a text that it laid: the sheet's length and the number of city objects.
#[derive(Clone, Copy, PartialEq, Eq)]
pub struct Laid {
    pub length: usize,
    pub objects: usize,
}

// Lays out a text in which the rules find no fault, in a sheet of zeroes.
fn lay_sheet(
    text: &[u8],
    table: &[u32],
    offsets: &[usize],
    children: &[u16],
    parents: &[u16],
    sheet: &mut [u8],
) -> Result<Laid, Refusal>
    requires { (Clean text.now table.now offsets.now children.now parents.now) × (Zeroes sheet.old) }
    ensures { Lays text.now (parsed (read text.now)) sheet.old sheet.new (answered result) }
{
    let length = records::sheet(text, table, offsets, children, parents, sheet);
    let room = sheet.len();
    if length > room {
        writer::clear(sheet);
        return Err(Refusal::at(Broken::NoRoom, 0));
    }
    Ok(Laid {
        length,
        objects: offsets.len(),
    })
}

// Lays out a text whose tree's words are the first n of the table, in a sheet of zeroes.
fn lay_table(
    text: &[u8],
    table: &[u32],
    n: usize,
    children: &mut [u16],
    parents: &mut [u16],
    sheet: &mut [u8],
) -> Result<Laid, Refusal>
    requires { (Stands text.now table.now n) × (RowRoom text.now table.now children.old)
        × (RowRoom text.now table.now parents.old) × (Zeroes sheet.old) }
    ensures { Lays text.now (parsed (read text.now)) sheet.old sheet.new (answered result) }
{
    let walked = examining::examine(text, table, n, children, parents);
    if walked.least < NO_FAULT {
        return Err(examining::refuse(text, table, n, &walked));
    }
    let offsets = examining::offsets(&walked.index);
    lay_sheet(text, table, offsets, children, parents, sheet)
}

// The same with rows of N numbers for the links, which do for a tree of at most 3 N words. Small rows are cleared sooner.
#[inline(never)]
fn lay_rows<const N: usize>(
    text: &[u8],
    table: &[u32],
    n: usize,
    sheet: &mut [u8],
) -> Result<Laid, Refusal>
    requires { (Stands text.now table.now n) × (n ≤ 3 * N) × (N ≤ 65535) × (Zeroes sheet.old) }
    ensures { Lays text.now (parsed (read text.now)) sheet.old sheet.new (answered result) }
{
    let mut children = [0; N];
    let mut parents = [0; N];
    lay_table(text, table, n, &mut children, &mut parents, sheet)
}

// The same with rows of a size that suits the tree. What is alike here and in `judging` is no function that takes the rest as a closure:
// after the call a proof would know nothing of the sheet that the closure borrowed, of which lay's clause `sheet_after` speaks.
fn lay_tree(text: &[u8], table: &[u32], n: usize, sheet: &mut [u8]) -> Result<Laid, Refusal>
    requires { (Stands text.now table.now n) × (length table.now ≤ 98352) × (Zeroes sheet.old) }
    ensures { Lays text.now (parsed (read text.now)) sheet.old sheet.new (answered result) }
{
    if n <= 6195 {
        return lay_rows::<2065>(text, table, n, sheet);
    }
    if n <= 49152 {
        return lay_rows::<16384>(text, table, n, sheet);
    }
    lay_rows::<32784>(text, table, n, sheet)
}

// Lays out a text in a sheet of zeroes, with a work table of N words, which has room for its tree. A small work table is cleared sooner.
#[inline(never)]
fn lay_text<const N: usize>(text: &[u8], sheet: &mut [u8]) -> Result<Laid, Refusal>
    requires { (length text.now ≤ 65535) × (3 * length text.now + 99 ≤ 2 * N) × (N ≤ 98352) × (Zeroes sheet.old) }
    ensures { Lays text.now (parsed (read text.now)) sheet.old sheet.new (answered result) }
{
    let mut table = [0; N];
    let n = examining::open(text, &mut table)?;
    lay_tree(text, &table, n, sheet)
}

// Lays out a text in the lent sheet: the sheet's length and the number of city objects, and the sheet with zeroes after it;
// or a refusal as judge gives it, 18 if the sheet is longer than the room, and zeroes throughout.
pub fn lay(text: &[u8], sheet: &mut [u8]) -> Result<Laid, Refusal>
    ensures result_value { answered result ≡ answer text.now (length sheet.old) }
    ensures sheet_after { sheet.new ≡ room_after text.now (length sheet.old) }
{
    writer::clear(sheet);
    examining::screen(text)?;
    if text.len() <= 4096 {
        return lay_text::<6194>(text, sheet);
    }
    lay_text::<98352>(text, sheet)
}
