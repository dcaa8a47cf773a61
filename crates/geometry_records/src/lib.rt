// Writes the records of the geometries of an accepted text from its node table: kinds 6, 7 and 8.
// If they do not fit, a part of them may be written, and the cursor is then past the sheet.
// Each function takes the cursor at which it is to write and gives the one after.
#![tactic(auto)]

ghost use Rattle.std.specs.Prelude.{◌-◌, ◌≤◌, true, ◌≡◌};
ghost use Rattle.strings.specs.Spans.{Span, decode_at};
ghost use Rattle.nodes.specs.Says.{Node, Sought, Gives};
ghost use Rattle.words.specs.Words.{is_lod, depth, values_depth};
ghost use Rattle.utf8.specs.Ascii.{ascii};
ghost use Rattle.model.specs.Model.{lay_surface, lod_code};
ghost use Rattle.model.specs.Read.{surface_named, lod_of};
ghost use Rattle.writer.specs.Writes.{Writes};
ghost use Rattle.arrays.specs.Fits.{Index as IndexNumber, Value, Elements, Leaves};
ghost use Rattle.arrays.specs.Says.{Holds, Wrote};
ghost use Rattle.geometry_records.specs.Members.{There, Leads, Named, QuotesIn, LodFits};
ghost use Rattle.geometry_records.specs.Members.{lod_member, boundary_member, surfaces_member, values_member, semantics_member, geometries_member};
ghost use Rattle.geometry_records.specs.Members.{each, surface_payload, values_payload, shape_payload};
ghost use Rattle.geometry_records.specs.Fits.{Perhaps, geometry_code, SemanticsFit, ShapeFits, GeometryFits};
ghost use Rattle.geometry_records.specs.Bytes.{surface_bytes, semantics_bytes, shape_bytes, geometry_bytes};
ghost use Rattle.geometry_records.specs.Says.{Quotes};

// Where the bytes of a string stand in the text, between its quotes.
#[derive(Drop)]
struct Quote {
    from: usize,
    to: usize,
}

// Where the bytes of the string that was found stand; no bytes, if no string was found.
fn quoted(text: &[u8], table: &[u32], found: Option<usize>) -> Quote
    requires { Sought text.now table.now found }
    ensures { Quotes text.now table.now found result }
{
    match found {
        Some(k) if nodes::is_string(text, table, k) => Quote {
            from: fields::text_from(text, table, k),
            to: fields::text_to(text, table, k),
        },
        _ => Quote { from: 0, to: 0 },
    }
}

// Where the bytes of a member that is a string stand; no bytes, if there is no such member.
fn quoted_member(text: &[u8], table: &[u32], i: usize, name: &[u8]) -> Quote
    requires { Node text.now table.now i }
    ensures { QuotesIn name.now text.now table.now i result }
{
    quoted(text, table, nodes::member(text, table, i, name))
}

// The node of a member that is there.
pub fn the_member(text: &[u8], table: &[u32], i: usize, name: &[u8]) -> usize
    requires { Holds (There name.now) text.now table.now i }
    ensures { Leads name.now text.now table.now i result }
{
    nodes::member(text, table, i, name).unwrap()
}

// The value of a digit.
fn digit(b: u8) -> u64
    requires { 48 ≤ b }
    ensures { result ≡ b - 48 }
{
    u64::from(b - b'0')
}

// The code of a lod: `2.1` is 2·16+1, `2` is 2·16+15.
fn lod_code(text: &[u8], from: usize, to: usize) -> u64
    requires { (Span text.now from to) × (is_lod (decode_at text.now from to) ≡ true) }
    ensures { result ≡ lod_code (lod_of (decode_at text.now from to)) }
{
    let mut space: [u8; 4] = [0; 4];
    let bytes: &mut [u8] = &mut space;
    let n = strings::copy(text, from, to, bytes, 0);
    let major = digit(bytes[0]);
    if n < 3 {
        return major * 16 + 15;
    }
    major * 16 + digit(bytes[2])
}

// The payload of a surface: its code, and for an added one its whole name.
fn surface_type(text: &[u8], from: usize, to: usize, sheet: &mut [u8], at: usize) -> usize
    requires { Span text.now from to }
    ensures { Writes (lay_surface (surface_named (decode_at text.now from to))) sheet.old sheet.new at result }
{
    if types::is_added(text, from, to) {
        let name = writer::put2(sheet, at, 19);
        return writer::string(text, from, to, sheet, name);
    }
    writer::put2(sheet, at, words::surface_code(text, from, to) as u64)
}

// The payload of the surface at a node.
fn surface_body(text: &[u8], table: &[u32], i: usize, sheet: &mut [u8], at: usize) -> usize
    requires { Node text.now table.now i }
    ensures { Wrote surface_payload text.now table.now i sheet.old sheet.new at result }
{
    let kind = quoted_member(text, table, i, b"type");
    surface_type(text, kind.from, kind.to, sheet, at)
}

// A surface: kind 7.
fn surface(text: &[u8], table: &[u32], i: usize, sheet: &mut [u8], at: usize) -> usize
    requires { Node text.now table.now i }
    ensures { Wrote surface_bytes text.now table.now i sheet.old sheet.new at result }
{
    writer::record(
        sheet,
        at,
        7,
        |sheet, body| surface_body(text, table, i, sheet, body),
    )
}

// The surfaces in an array.
fn surfaces(text: &[u8], table: &[u32], i: usize, sheet: &mut [u8], at: usize) -> usize
    requires { Node text.now table.now i }
    ensures { Wrote (each surface_bytes) text.now table.now i sheet.old sheet.new at result }
{
    let mut o = at;
    for k in nodes::elements(text, table, i) {
        o = surface(text, table, k, sheet, o);
    }
    o
}

// The surfaces of the semantics at a node.
fn surfaces_in(text: &[u8], table: &[u32], i: usize, sheet: &mut [u8], at: usize) -> usize
    requires { Node text.now table.now i }
    ensures { Wrote surfaces_member text.now table.now i sheet.old sheet.new at result }
{
    match nodes::member(text, table, i, b"surfaces") {
        Some(k) => surfaces(text, table, k, sheet, at),
        None => at,
    }
}

// The payload of the values of the semantics at a node, of a geometry of that code.
fn values_body(
    text: &[u8],
    table: &[u32],
    i: usize,
    code: usize,
    sheet: &mut [u8],
    at: usize,
) -> usize
    requires { Holds (Named (Leaves Value (values_depth code)) (ascii "values")) text.now table.now i }
    ensures { Wrote (values_payload code) text.now table.now i sheet.old sheet.new at result }
{
    let k = the_member(text, table, i, b"values");
    arrays::values(text, table, k, types::values_depth_of(code), sheet, at)
}

// The values of the semantics at a node: kind 8.
fn values(text: &[u8], table: &[u32], i: usize, code: usize, sheet: &mut [u8], at: usize) -> usize
    requires { Holds (SemanticsFit code) text.now table.now i }
    ensures { Wrote (values_member code) text.now table.now i sheet.old sheet.new at result }
{
    writer::record(
        sheet,
        at,
        8,
        |sheet, body| values_body(text, table, i, code, sheet, body),
    )
}

// The semantics of a geometry of that code: kind 7 for each surface, and kind 8.
fn semantics(
    text: &[u8],
    table: &[u32],
    i: usize,
    code: usize,
    sheet: &mut [u8],
    at: usize,
) -> usize
    requires { Holds (SemanticsFit code) text.now table.now i }
    ensures { Wrote (semantics_bytes code) text.now table.now i sheet.old sheet.new at result }
{
    let next = surfaces_in(text, table, i, sheet, at);
    values(text, table, i, code, sheet, next)
}

// The semantics of the geometry at a node, if it has any.
fn semantics_in(
    text: &[u8],
    table: &[u32],
    i: usize,
    code: usize,
    sheet: &mut [u8],
    at: usize,
) -> usize
    requires { Holds (Perhaps (SemanticsFit code) "semantics") text.now table.now i }
    ensures { Wrote (semantics_member code) text.now table.now i sheet.old sheet.new at result }
{
    match nodes::member(text, table, i, b"semantics") {
        Some(k) => semantics(text, table, k, code, sheet, at),
        None => at,
    }
}

// The lod of a geometry in two bytes.
fn lod(text: &[u8], table: &[u32], i: usize, sheet: &mut [u8], at: usize) -> usize
    requires { Holds LodFits text.now table.now i }
    ensures { Wrote lod_member text.now table.now i sheet.old sheet.new at result }
{
    let quote = quoted_member(text, table, i, b"lod");
    writer::put2(sheet, at, lod_code(text, quote.from, quote.to))
}

// The boundary of a geometry of that code.
fn boundary(text: &[u8], table: &[u32], i: usize, code: usize, sheet: &mut [u8], at: usize) -> usize
    requires { Holds (Named (Leaves IndexNumber (depth code)) (ascii "boundaries")) text.now table.now i }
    ensures { Wrote (boundary_member code) text.now table.now i sheet.old sheet.new at result }
{
    let k = the_member(text, table, i, b"boundaries");
    arrays::boundary(text, table, k, types::depth_of(code), sheet, at)
}

// The type of that code, the lod and the boundary of a geometry.
fn shape_body(
    text: &[u8],
    table: &[u32],
    i: usize,
    code: usize,
    sheet: &mut [u8],
    at: usize,
) -> usize
    requires { Holds (ShapeFits code) text.now table.now i }
    ensures { Wrote (shape_payload code) text.now table.now i sheet.old sheet.new at result }
{
    let first = writer::put2(sheet, at, code as u64);
    let second = lod(text, table, i, sheet, first);
    boundary(text, table, i, code, sheet, second)
}

// Their record: kind 6.
fn shape(text: &[u8], table: &[u32], i: usize, code: usize, sheet: &mut [u8], at: usize) -> usize
    requires { Holds (ShapeFits code) text.now table.now i }
    ensures { Wrote (shape_bytes code) text.now table.now i sheet.old sheet.new at result }
{
    writer::record(
        sheet,
        at,
        6,
        |sheet, body| shape_body(text, table, i, code, sheet, body),
    )
}

// The code of a geometry's type.
fn geometry_code(text: &[u8], table: &[u32], i: usize) -> usize
    requires { Node text.now table.now i }
    ensures { Gives geometry_code text.now table.now i result }
{
    fields::geometry_code(text, table, nodes::member(text, table, i, b"type"))
}

// A geometry: kind 6, and with semantics kinds 7 and 8.
fn geometry(text: &[u8], table: &[u32], i: usize, sheet: &mut [u8], at: usize) -> usize
    requires { Holds GeometryFits text.now table.now i }
    ensures { Wrote geometry_bytes text.now table.now i sheet.old sheet.new at result }
{
    let code = geometry_code(text, table, i);
    let next = shape(text, table, i, code, sheet, at);
    semantics_in(text, table, i, code, sheet, next)
}

// The geometries in an array.
fn each_geometry(text: &[u8], table: &[u32], i: usize, sheet: &mut [u8], at: usize) -> usize
    requires { Holds (Elements GeometryFits) text.now table.now i }
    ensures { Wrote (each geometry_bytes) text.now table.now i sheet.old sheet.new at result }
{
    let mut o = at;
    for k in nodes::elements(text, table, i) {
        o = geometry(text, table, k, sheet, o);
    }
    o
}

// The geometries of the object at a node, if it has any.
pub fn geometries_in(text: &[u8], table: &[u32], i: usize, sheet: &mut [u8], at: usize) -> usize
    requires { Holds (Perhaps (Elements GeometryFits) "geometry") text.now table.now i }
    ensures { Wrote geometries_member text.now table.now i sheet.old sheet.new at result }
{
    match nodes::member(text, table, i, b"geometry") {
        Some(k) => each_geometry(text, table, k, sheet, at),
        None => at,
    }
}
