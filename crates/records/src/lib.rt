// Writes the records of an accepted text's sheet from its node table.
// If they do not fit, a part of them may be written, and the cursor is then past the sheet.
// Each function takes the cursor at which it is to write and gives the one after.
#![tactic(auto)]

ghost use Rattle.std.specs.Prelude.{◌+◌, []};
ghost use Rattle.nodes.specs.Access.{name_of};
ghost use Rattle.nodes.specs.Says.{Node, Gives};
ghost use Rattle.words.specs.Words.{code_of, object_words};
ghost use Rattle.fields.specs.Fields.{type_text};
ghost use Rattle.ids.specs.Says.{MemberNode};
ghost use Rattle.marks.specs.Marks.{row_of};
ghost use Rattle.marks.specs.Says.{RowAt};
ghost use Rattle.utf8.specs.Bytes.{le};
ghost use Rattle.model.specs.Code.{concat_map};
ghost use Rattle.model.specs.Model.{rec, lay_rec};
ghost use Rattle.writer.specs.Writes.{Writes};
ghost use Rattle.arrays.specs.Fits.{Pair, Elements, Triple, Coordinate};
ghost use Rattle.arrays.specs.Says.{Holds, Wrote};
ghost use Rattle.geometry_records.specs.Members.{Named};
ghost use Rattle.records.specs.Members.{MemberWrote, pairs_member, transform_member, vertices_member, frame_bytes, identity_payload, transform_payload};
ghost use Rattle.records.specs.Fits.{ObjectFits, TransformFits, RootFits};
ghost use Rattle.records.specs.Bytes.{transform_bytes, vertices_bytes};
ghost use Rattle.records.specs.Says.{link_bytes, LinksWrote, IdentityWrote, ObjectWrote, Placed, ObjectsWrote, Ready, SheetWrote};

// The numbers of a row of links.
fn numbers(row: &[u16], sheet: &mut [u8], at: usize) -> usize
    ensures { Writes (concat_map (le 4) row.now) sheet.old sheet.new at result }
{
    let mut o = at;
    for n in row {
        o = writer::put4(sheet, o, u64::from(*n));
    }
    o
}

// Their record: kind 4 or 5.
fn link_record(row: &[u16], kind: u64, sheet: &mut [u8], at: usize) -> usize
    ensures { Writes (link_bytes kind row.now) sheet.old sheet.new at result }
{
    writer::record(sheet, at, kind, |sheet, body| numbers(row, sheet, body))
}

// The links of the object of number k: kind 4 for its children, kind 5 for its parents.
fn links(children: &[u16], parents: &[u16], k: usize, sheet: &mut [u8], at: usize) -> usize
    requires { (RowAt children.now k) × (RowAt parents.now k) }
    ensures { LinksWrote (row_of children.now k) (row_of parents.now k) sheet.old sheet.new at result }
{
    let next = link_record(marks::row(children, k), 4, sheet, at);
    link_record(marks::row(parents, k), 5, sheet, next)
}

// The code of an object's type.
fn object_code(text: &[u8], table: &[u32], i: usize) -> usize
    requires { Node text.now table.now i }
    ensures { Gives (λ v. code_of object_words (type_text v)) text.now table.now i result }
{
    fields::object_code(text, table, nodes::member(text, table, i, b"type"))
}

// The ID of the object whose name stands at node `own`.
fn id(text: &[u8], table: &[u32], own: usize, sheet: &mut [u8], at: usize) -> usize
    requires { MemberNode text.now table.now own }
    ensures { MemberWrote name_of text.now table.now own sheet.old sheet.new at result }
{
    let from = nodes::start(table, own);
    let to = nodes::end(table, own);
    writer::string(text, from + 1, to - 1, sheet, at)
}

// The type and the ID of the object whose name stands at node `own`.
fn identity_body(text: &[u8], table: &[u32], own: usize, sheet: &mut [u8], at: usize) -> usize
    requires { (MemberNode text.now table.now own) × (Node text.now table.now (own + 3)) }
    ensures { MemberWrote identity_payload text.now table.now own sheet.old sheet.new at result }
{
    let code = object_code(text, table, own + 3);
    let next = writer::put2(sheet, at, code as u64);
    id(text, table, own, sheet, next)
}

// Their record: kind 3.
fn identity(text: &[u8], table: &[u32], own: usize, sheet: &mut [u8], at: usize) -> usize
    requires { (MemberNode text.now table.now own) × (Node text.now table.now (own + 3)) }
    ensures { IdentityWrote text.now table.now own sheet.old sheet.new at result }
{
    writer::record(
        sheet,
        at,
        3,
        |sheet, body| identity_body(text, table, own, sheet, body),
    )
}

// The object of number k, whose name stands at node `own`: kinds 3, 4 and 5, and its geometries.
fn object(
    text: &[u8],
    table: &[u32],
    own: usize,
    children: &[u16],
    parents: &[u16],
    k: usize,
    sheet: &mut [u8],
    at: usize,
) -> usize
    requires member_node { (MemberNode text.now table.now own) × (Holds ObjectFits text.now table.now (own + 3)) }
    requires row_at { (RowAt children.now k) × (RowAt parents.now k) }
    ensures { ObjectWrote text.now table.now own (row_of children.now k) (row_of parents.now k)
        sheet.old sheet.new at result }
{
    let a = identity(text, table, own, sheet, at);
    let b = links(children, parents, k, sheet, a);
    geometry_records::geometries_in(text, table, own + 3, sheet, b)
}

// All objects.
fn objects(
    text: &[u8],
    table: &[u32],
    offsets: &[usize],
    children: &[u16],
    parents: &[u16],
    sheet: &mut [u8],
    at: usize,
) -> usize
    requires { Placed text.now table.now offsets.now children.now parents.now }
    ensures { ObjectsWrote text.now table.now offsets.now sheet.old sheet.new at result }
{
    let mut o = at;
    for (k, own) in offsets.iter().enumerate() {
        o = object(text, table, *own, children, parents, k, sheet, o);
    }
    o
}

// The three pairs of a member that is there.
fn pairs(text: &[u8], table: &[u32], i: usize, name: &[u8], sheet: &mut [u8], at: usize) -> usize
    requires { Holds (Named (Triple Pair) name.now) text.now table.now i }
    ensures { Wrote (pairs_member name.now) text.now table.now i sheet.old sheet.new at result }
{
    let k = geometry_records::the_member(text, table, i, name);
    arrays::pairs(text, table, k, sheet, at)
}

// The payload of the transform.
fn transform_body(text: &[u8], table: &[u32], i: usize, sheet: &mut [u8], at: usize) -> usize
    requires { Holds TransformFits text.now table.now i }
    ensures { Wrote transform_payload text.now table.now i sheet.old sheet.new at result }
{
    let middle = pairs(text, table, i, b"scale", sheet, at);
    pairs(text, table, i, b"translate", sheet, middle)
}

// The transform: kind 1.
fn transform(text: &[u8], table: &[u32], i: usize, sheet: &mut [u8], at: usize) -> usize
    requires { Holds TransformFits text.now table.now i }
    ensures { Wrote transform_bytes text.now table.now i sheet.old sheet.new at result }
{
    writer::record(
        sheet,
        at,
        1,
        |sheet, body| transform_body(text, table, i, sheet, body),
    )
}

// The transform of the root: kind 1.
fn transform_in(text: &[u8], table: &[u32], sheet: &mut [u8], at: usize) -> usize
    requires { Holds RootFits text.now table.now 0 }
    ensures { Wrote transform_member text.now table.now 0 sheet.old sheet.new at result }
{
    let i = geometry_records::the_member(text, table, 0, b"transform");
    transform(text, table, i, sheet, at)
}

// The vertices: kind 2.
fn vertices(text: &[u8], table: &[u32], i: usize, sheet: &mut [u8], at: usize) -> usize
    requires { Holds (Elements (Triple Coordinate)) text.now table.now i }
    ensures { Wrote vertices_bytes text.now table.now i sheet.old sheet.new at result }
{
    writer::record(
        sheet,
        at,
        2,
        |sheet, body| arrays::vertices(text, table, i, sheet, body),
    )
}

// The vertices of the root.
fn vertices_in(text: &[u8], table: &[u32], sheet: &mut [u8], at: usize) -> usize
    requires { Holds RootFits text.now table.now 0 }
    ensures { Wrote vertices_member text.now table.now 0 sheet.old sheet.new at result }
{
    let i = geometry_records::the_member(text, table, 0, b"vertices");
    vertices(text, table, i, sheet, at)
}

// The last record, kind 9, which has no payload.
fn ending(sheet: &mut [u8], at: usize) -> usize
    ensures { Writes (lay_rec (rec 9 [])) sheet.old sheet.new at result }
{
    writer::record(sheet, at, 9, |_, body| body)
}

// What comes before the objects: kinds 1 and 2.
fn frame(text: &[u8], table: &[u32], sheet: &mut [u8]) -> usize
    requires { Holds RootFits text.now table.now 0 }
    ensures { Wrote frame_bytes text.now table.now 0 sheet.old sheet.new 0 result }
{
    let next = transform_in(text, table, sheet, 0);
    vertices_in(text, table, sheet, next)
}

// The sheet of the text: kinds 1 and 2, the objects, and kind 9, which ends it.
pub fn sheet(
    text: &[u8],
    table: &[u32],
    offsets: &[usize],
    children: &[u16],
    parents: &[u16],
    sheet: &mut [u8],
) -> usize
    requires { Ready text.now table.now offsets.now children.now parents.now }
    ensures { SheetWrote text.now table.now sheet.old sheet.new result }
{
    let a = frame(text, table, sheet);
    let b = objects(text, table, offsets, children, parents, sheet, a);
    ending(sheet, b)
}
