// The words of docs/RULES.md and their codes.
#![tactic(auto)]

ghost use Rattle.std.specs.Prelude.{◌+◌, ◌<◌, ◌≡◌, length, map};
ghost use Rattle.strings.specs.Spans.{Span, decode_at};
ghost use Rattle.words.specs.Words.{code_of, object_words, geometry_words, surface_words};
ghost use Rattle.words.specs.Tables.{number_in, Numbered, Unescaped};

// The object types, in the order of docs/RULES.md.
static OBJECTS: [&[u8]; 33] = [
    b"Bridge",
    b"Building",
    b"CityFurniture",
    b"CityObjectGroup",
    b"GenericCityObject",
    b"LandUse",
    b"OtherConstruction",
    b"PlantCover",
    b"Railway",
    b"Road",
    b"SolitaryVegetationObject",
    b"TINRelief",
    b"TransportSquare",
    b"Tunnel",
    b"WaterBody",
    b"Waterway",
    b"BridgePart",
    b"BridgeInstallation",
    b"BridgeConstructiveElement",
    b"BridgeRoom",
    b"BridgeFurniture",
    b"BuildingPart",
    b"BuildingInstallation",
    b"BuildingConstructiveElement",
    b"BuildingFurniture",
    b"BuildingStorey",
    b"BuildingRoom",
    b"BuildingUnit",
    b"TunnelPart",
    b"TunnelInstallation",
    b"TunnelConstructiveElement",
    b"TunnelHollowSpace",
    b"TunnelFurniture",
];

// At each key, a guess at the place of an object type, counted from 0: right for every listed word that is written without escapes.
static OBJECT_GUESSES: [u8; 128] = [
    33, 33, 33, 33, 33, 26, 2, 33, 33, 33, 33, 33, 33, 33, 33, 33, 33, 33, 7, 33, 33, 33, 33, 33,
    33, 25, 33, 33, 33, 33, 4, 33, 33, 33, 33, 20, 33, 33, 16, 33, 5, 33, 33, 12, 32, 33, 24, 28,
    33, 21, 33, 33, 0, 33, 31, 33, 33, 33, 33, 33, 33, 33, 33, 33, 33, 33, 33, 10, 33, 33, 14, 33,
    33, 33, 33, 33, 33, 18, 33, 33, 33, 33, 33, 33, 33, 33, 30, 33, 23, 33, 11, 33, 33, 1, 17, 33,
    33, 33, 33, 6, 3, 33, 33, 29, 33, 22, 33, 9, 33, 33, 33, 33, 33, 33, 33, 33, 8, 15, 33, 33, 33,
    13, 19, 33, 33, 33, 33, 27,
];

// The geometry types, in the order of docs/RULES.md.
static GEOMETRIES: [&[u8]; 7] = [
    b"MultiPoint",
    b"MultiLineString",
    b"MultiSurface",
    b"CompositeSurface",
    b"Solid",
    b"MultiSolid",
    b"CompositeSolid",
];

// At each key, a guess at the place of a geometry type, counted from 0: right for every listed word that is written without escapes.
static GEOMETRY_GUESSES: [u8; 128] = [
    7, 7, 7, 7, 7, 7, 7, 7, 7, 7, 7, 7, 7, 7, 7, 7, 7, 7, 7, 7, 7, 7, 7, 7, 7, 7, 7, 7, 7, 7, 7, 7,
    7, 7, 7, 3, 7, 7, 7, 7, 7, 7, 7, 7, 7, 7, 7, 7, 7, 2, 7, 7, 7, 7, 7, 7, 7, 7, 7, 7, 7, 7, 7, 7,
    7, 7, 7, 7, 7, 7, 7, 7, 7, 7, 7, 7, 7, 7, 7, 7, 7, 7, 7, 7, 7, 7, 7, 7, 7, 7, 4, 7, 7, 7, 7, 0,
    7, 7, 7, 6, 1, 7, 7, 7, 7, 7, 7, 7, 7, 7, 7, 7, 7, 5, 7, 7, 7, 7, 7, 7, 7, 7, 7, 7, 7, 7, 7, 7,
];

// The surface types, in the order of docs/RULES.md.
static SURFACES: [&[u8]; 18] = [
    b"RoofSurface",
    b"GroundSurface",
    b"WallSurface",
    b"ClosureSurface",
    b"OuterCeilingSurface",
    b"OuterFloorSurface",
    b"Window",
    b"Door",
    b"InteriorWallSurface",
    b"CeilingSurface",
    b"FloorSurface",
    b"WaterSurface",
    b"WaterGroundSurface",
    b"WaterClosureSurface",
    b"TrafficArea",
    b"AuxiliaryTrafficArea",
    b"TransportationMarking",
    b"TransportationHole",
];

// At each key, a guess at the place of a surface type, counted from 0: right for every listed word that is written without escapes.
static SURFACE_GUESSES: [u8; 128] = [
    18, 18, 17, 9, 18, 18, 18, 18, 18, 18, 18, 18, 18, 14, 18, 18, 18, 18, 18, 18, 18, 18, 10, 18,
    3, 6, 18, 18, 18, 18, 0, 15, 18, 18, 18, 8, 18, 18, 18, 18, 18, 1, 18, 18, 18, 18, 18, 18, 18,
    18, 18, 18, 18, 18, 5, 18, 4, 18, 18, 18, 18, 18, 18, 18, 18, 18, 18, 18, 18, 18, 18, 18, 18,
    18, 18, 18, 18, 18, 18, 18, 18, 18, 18, 18, 18, 18, 18, 18, 18, 18, 18, 18, 18, 18, 18, 18, 18,
    16, 18, 18, 18, 18, 18, 18, 18, 18, 18, 7, 18, 18, 18, 18, 18, 18, 18, 18, 2, 11, 18, 18, 18,
    18, 18, 12, 13, 18, 18, 18,
];

// The number, from 1, of the word that a string is, as decoded; 0 if it is none of them, as `code_of` of specs/Words.antt says.
fn number(text: &[u8], at: usize, end: usize, words: &[&[u8]]) -> usize
    requires { Span text.now at end }
    ensures { result ≡ number_in 1 (map (λ word. word.now) words.now) (decode_at text.now at end) }
{
    for (k, word) in words.iter().enumerate() {
        if compare::is_word(text, at, end, word) {
            return k + 1;
        }
    }
    0
}

// A number below 128 by which a string's place among the words is guessed. No two words of one list have the same.
fn key(text: &[u8], at: usize, end: usize) -> usize
    requires { Span text.now at end }
    ensures { result < 128 }
{
    let size = end - at;
    if size < 4 {
        return 0;
    }
    (size + usize::from(text[at + 1]) * 3 + usize::from(text[end - 3]) * 6) % 128
}

// The same number, found at once where the guess is right. No word has a backslash, so a string that has its bytes is that word.
fn code(text: &[u8], at: usize, end: usize, words: &[&[u8]], guesses: &[u8; 128]) -> usize
    requires { (Span text.now at end) × Numbered (map (λ word. word.now) words.now) × Unescaped (map (λ word. word.now) words.now) }
    ensures { result ≡ number_in 1 (map (λ word. word.now) words.now) (decode_at text.now at end) }
{
    let place = usize::from(guesses[key(text, at, end)]);
    if place < words.len() {
        if &text[at..end] == words[place] {
            return place + 1;
        }
    }
    number(text, at, end, words)
}

// The code of an object type, 0 if the string is none.
pub fn object_code(text: &[u8], at: usize, end: usize) -> usize
    requires { Span text.now at end }
    ensures { result ≡ code_of object_words (decode_at text.now at end) }
{
    code(text, at, end, &OBJECTS, &OBJECT_GUESSES)
}

// The code of a geometry type, 0 if the string is none.
pub fn geometry_code(text: &[u8], at: usize, end: usize) -> usize
    requires { Span text.now at end }
    ensures { result ≡ code_of geometry_words (decode_at text.now at end) }
{
    code(text, at, end, &GEOMETRIES, &GEOMETRY_GUESSES)
}

// The code of a surface type, 0 if the string is none of the listed ones.
pub fn surface_code(text: &[u8], at: usize, end: usize) -> usize
    requires { Span text.now at end }
    ensures { result ≡ code_of surface_words (decode_at text.now at end) }
{
    code(text, at, end, &SURFACES, &SURFACE_GUESSES)
}
