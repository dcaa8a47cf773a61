// What a string that names a type or a level of detail looks like, and what a type's code tells: which geometries an object may have, and how deep a
// geometry is.
#![tactic(auto)]

ghost use Rattle.std.specs.Prelude.{◌<◌, ◌≡◌, ◌&&◌, true, length, get_or, eqb};
ghost use Rattle.utf8.specs.Ascii.{is_digit};
ghost use Rattle.strings.specs.Spans.{Span, decode_at};
ghost use Rattle.words.specs.Words.{is_added, is_added_name, is_lod, is_permitted, depth, values_depth};
ghost use Rattle.words.specs.Tables.{tabled, looks_second_level};

use strings::Decoder;

// May the string be a type of the second level? Those have at least ten bytes and begin with B or T.
pub fn may_be_second_level(text: &[u8], at: usize, end: usize) -> bool
    requires { Span text.now at end }
    ensures { result ≡ looks_second_level text.now at end }
{
    end - at >= 10 && matches!(text[at], b'B' | b'T' | b'\\')
}

// Does the string begin with a plus sign?
pub fn is_added(text: &[u8], at: usize, end: usize) -> bool
    requires { Span text.now at end }
    ensures { result ≡ is_added (decode_at text.now at end) }
{
    matches!(Decoder::new(text, at, end).next(), Some(b'+'))
}

// Does the string begin with a plus sign and have at least one more byte?
pub fn is_added_name(text: &[u8], at: usize, end: usize) -> bool
    requires { Span text.now at end }
    ensures { result ≡ is_added_name (decode_at text.now at end) }
{
    is_added(text, at, end) && strings::decoded_length(text, at, end) > 1
}

// Are the bytes digit, point, digit?
fn is_decimal(a: u8, b: u8, c: u8) -> bool
    ensures { result ≡ is_digit a && eqb b 46 && is_digit c }
{
    if !a.is_ascii_digit() || b != b'.' {
        return false;
    }
    c.is_ascii_digit()
}

// Is the string a digit, or digit, point, digit?
pub fn is_lod(text: &[u8], at: usize, end: usize) -> bool
    requires { Span text.now at end }
    ensures { result ≡ is_lod (decode_at text.now at end) }
{
    let mut bytes = Decoder::new(text, at, end);
    let Some(a) = bytes.next() else {
        return false;
    };
    let Some(b) = bytes.next() else {
        return a.is_ascii_digit();
    };
    let Some(c) = bytes.next() else {
        return false;
    };
    is_decimal(a, b, c) && bytes.next().is_none()
}

// The geometries that an object may have: bit k is for the geometry of code k. First those of the objects that no row names.
const ALL: u8 = 0b1111_1110;

// Of bridges, tunnels and buildings, their parts, and a building's storeys, rooms and units.
const BUILT: u8 = 0b1011_1000;

// Of GenericCityObject.
const GENERIC: u8 = 0b1011_1110;

// Of LandUse.
const LAND: u8 = 0b0001_1000;

// Of PlantCover.
const PLANTS: u8 = 0b1111_1000;

// Of TINRelief.
const RELIEF: u8 = 0b0001_0000;

// Of WaterBody.
const WATER: u8 = 0b1011_1100;

// May an object have a geometry, by a table with a row for each object's code? An object with no row may have each.
fn in_table(rows: &[u8], object: usize, code: usize) -> bool
    requires { (length rows.now ≡ 34) × (tabled rows.now ≡ true) × (code < 8) }
    ensures { result ≡ is_permitted object code }
{
    match rows.get(object) {
        Some(row) => *row >> code & 1 == 1,
        None => code > 0,
    }
}

// May an object whose type has the first code have a geometry whose type has the second?
pub fn permitted(object: usize, code: usize) -> bool
    ensures { result ≡ is_permitted object code }
{
    let rows: [u8; 34] = [
        ALL, // no code
        BUILT, // Bridge
        BUILT, // Building
        ALL, // CityFurniture
        ALL, // CityObjectGroup
        GENERIC, // GenericCityObject
        LAND, // LandUse
        ALL, // OtherConstruction
        PLANTS, // PlantCover
        ALL, // Railway
        ALL, // Road
        ALL, // SolitaryVegetationObject
        RELIEF, // TINRelief
        ALL, // TransportSquare
        BUILT, // Tunnel
        WATER, // WaterBody
        ALL, // Waterway
        BUILT, // BridgePart
        ALL, // BridgeInstallation
        ALL, // BridgeConstructiveElement
        ALL, // BridgeRoom
        ALL, // BridgeFurniture
        BUILT, // BuildingPart
        ALL, // BuildingInstallation
        ALL, // BuildingConstructiveElement
        ALL, // BuildingFurniture
        BUILT, // BuildingStorey
        BUILT, // BuildingRoom
        BUILT, // BuildingUnit
        BUILT, // TunnelPart
        ALL, // TunnelInstallation
        ALL, // TunnelConstructiveElement
        ALL, // TunnelHollowSpace
        ALL, // TunnelFurniture
    ];
    code < 8 && in_table(&rows, object, code)
}

// What a table has for a code; 0 past its end.
fn entry(table: &[usize], code: usize) -> usize
    ensures { result ≡ get_or table.now code 0 }
{
    table.get(code).copied().unwrap_or(0)
}

// How deep the boundary of a geometry type is.
pub fn depth_of(code: usize) -> usize
    ensures { result ≡ depth code }
{
    entry(&[0, 1, 2, 3, 3, 4, 5, 5], code)
}

// How deep the values of a geometry type are.
pub fn values_depth_of(code: usize) -> usize
    ensures { result ≡ values_depth code }
{
    entry(&[0, 1, 1, 1, 1, 2, 3, 3], code)
}
