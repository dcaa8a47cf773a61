// Rules 7 to 14 over the node table of a text, and the index of its city objects. Each function takes the least fault so far and gives the least.
// A function whose name ends in `_at` checks the value at its node. An object's function is a line of checks of its members, each by `optional`,
// `required` or, where others use what was found, `required_found`, which are handed the check of the member's value.
#![tactic(auto)]

ghost use Rattle.std.specs.Prelude.{◌<◌, [], ◌∷◌, length};
ghost use Rattle.utf8.specs.Ascii.{ascii};
ghost use Rattle.words.specs.Words.{object_words, is_added};
ghost use Rattle.nodes.specs.Access.{text_of};
ghost use Rattle.nodes.specs.Faults.{least};
ghost use Rattle.nodes.specs.Says.{Node, Sought, Gives};
ghost use Rattle.fields.specs.Says.{StringNode};
ghost use Rattle.shapes.specs.Checks.{all};
ghost use Rattle.rules.specs.Schema.{one_word, object_type, city_json};
ghost use Rattle.rules.specs.Schema as schema;
ghost use Rattle.geometry.specs.Says.{Checked, required, MemberFound, TypeAt, CodeAt};
ghost use Rattle.schema.specs.Says as says;
ghost use Rattle.schema.specs.Says.{ExtraAt, ExtraFound, Named, Limited, Empty, Fills, IndexedAt};

use fields::Index;
use geometry::{array_of, optional, required, required_found, string_that};

// Rules 7 and 10: a string that is one word.
fn one_word(text: &[u8], table: &[u32], k: usize, word: &[u8], best: u32) -> u32
    requires { (Node text.now table.now k) × (0 < length word.now) }
    ensures { Checked (one_word word.now) text.now table.now k best result }
{
    string_that(
        text,
        table,
        k,
        best,
        |k| fields::is_word(text, table, k, word),
    )
}

// Does the string at a node begin with a plus sign?
fn is_added(text: &[u8], table: &[u32], k: usize) -> bool
    requires { StringNode text.now table.now k }
    ensures { Gives (λ v. is_added (text_of v)) text.now table.now k result }
{
    types::is_added(
        text,
        fields::text_from(text, table, k),
        fields::text_to(text, table, k),
    )
}

// Rules 7, 10 and 11 of an object's type, whose code is given.
fn object_type_at(text: &[u8], table: &[u32], k: usize, code: usize, best: u32) -> u32
    requires { CodeAt object_words text.now table.now k code }
    ensures { Checked object_type text.now table.now k best result }
{
    if !nodes::is_string(text, table, k) {
        return shapes::string(text, table, k, best);
    }
    if code != 0 {
        return best;
    }
    let rule = if is_added(text, table, k) { 11 } else { 10 };
    shapes::unless(false, rule, text, table, k, best)
}

// An array of strings.
fn ids(text: &[u8], table: &[u32], i: usize, best: u32) -> u32
    requires { Node text.now table.now i }
    ensures { Checked schema.links text.now table.now i best result }
{
    array_of(
        text,
        table,
        i,
        best,
        |k, best| shapes::string(text, table, k, best),
    )
}

// A city object whose type was found, with its code.
fn city_object_of(
    text: &[u8],
    table: &[u32],
    i: usize,
    kind: Option<usize>,
    code: usize,
    vertices: usize,
    best: u32,
) -> u32
    requires { TypeAt object_words text.now table.now i kind code }
    ensures { Checked (schema.city_object vertices) text.now table.now i best result }
{
    let a = shapes::object(text, table, i, best);
    let b = required_found(
        text,
        table,
        i,
        kind,
        a,
        |k, best| object_type_at(text, table, k, code, best),
    );
    let c = optional(
        text,
        table,
        i,
        b"attributes",
        b,
        |k, best| shapes::object(text, table, k, best),
    );
    let d = optional(
        text,
        table,
        i,
        b"children",
        c,
        |k, best| ids(text, table, k, best),
    );
    let e = optional(
        text,
        table,
        i,
        b"parents",
        d,
        |k, best| ids(text, table, k, best),
    );
    optional(
        text,
        table,
        i,
        b"geometry",
        e,
        |k, best| geometry::geometries_at(text, table, k, vertices, code, best),
    )
}

// A city object.
fn city_object(text: &[u8], table: &[u32], i: usize, vertices: usize, best: u32) -> u32
    requires { Node text.now table.now i }
    ensures { Gives (λ v. least best (schema.city_object vertices v)) text.now table.now i result }
{
    let kind = nodes::member(text, table, i, b"type");
    let code = fields::object_code(text, table, kind);
    city_object_of(text, table, i, kind, code, vertices, best)
}

// A transform.
fn transform_at(text: &[u8], table: &[u32], i: usize, best: u32) -> u32
    requires { Node text.now table.now i }
    ensures { Checked schema.transform text.now table.now i best result }
{
    let a = shapes::object(text, table, i, best);
    let b = required(
        text,
        table,
        i,
        b"scale",
        a,
        |k, best| shapes::three_pairs(text, table, k, best),
    );
    required(
        text,
        table,
        i,
        b"translate",
        b,
        |k, best| shapes::three_pairs(text, table, k, best),
    )
}

// What the walk over the city objects gives: the index of the first 1,024, and the least fault.
#[derive(Drop)]
pub struct Walked {
    pub index: Index,
    pub least: u32,
}

// Fills an empty index with the first 1,024 members of the city objects that were found; other values have none. Gives the node of the name of the
// 1,025th, if there is one.
fn fill_index(text: &[u8], table: &[u32], found: Option<usize>, index: &mut Index) -> Option<usize>
    requires { (Sought text.now table.now found) × (Empty index.old) }
    ensures { Fills text.now table.now found index.new result }
{
    let Some(i) = found else {
        return None;
    };
    for k in nodes::names(text, table, i) {
        let full = index.count == 1024;
        if full {
            return Some(k);
        }
        index.offsets[index.count] = k;
        index.count += 1;
    }
    None
}

// Rule 9: more than 1,024 city objects, at the name of the 1,025th.
fn too_many(text: &[u8], table: &[u32], extra: Option<usize>, best: u32) -> u32
    requires { Named text.now table.now extra }
    ensures { Limited text.now table.now extra best result }
{
    let Some(k) = extra else {
        return best;
    };
    nodes::lesser(best, nodes::fault_at(9, nodes::start(table, k)))
}

// The city objects: an object (7) of at most 1,024 (9) of them, of which the name of the next is known.
fn city_objects_at(
    text: &[u8],
    table: &[u32],
    i: usize,
    extra: Option<usize>,
    vertices: usize,
    best: u32,
) -> u32
    requires { (Node text.now table.now i) × (ExtraAt text.now table.now i extra) }
    ensures { Checked (schema.city_objects vertices) text.now table.now i best result }
{
    let a = shapes::object(text, table, i, best);
    let mut least = too_many(text, table, extra, a);
    for k in nodes::names(text, table, i) {
        least = city_object(text, table, k + 3, vertices, least);
    }
    least
}

// The city objects that were found, over the vertices, and these.
fn town(text: &[u8], table: &[u32], objects: Option<usize>, extra: Option<usize>, best: u32) -> u32
    requires { (MemberFound (ascii "CityObjects") text.now table.now 0 objects) × (ExtraFound text.now table.now objects extra) }
    ensures { Checked (all (says.objects ∷ required (ascii "vertices") schema.vertices ∷ []))
        text.now table.now 0 best result }
{
    let points = nodes::member(text, table, 0, b"vertices");
    let count = fields::count_found(text, table, points);
    let a = required_found(
        text,
        table,
        0,
        objects,
        best,
        |k, best| city_objects_at(text, table, k, extra, count, best),
    );
    required_found(
        text,
        table,
        0,
        points,
        a,
        |k, best| shapes::vertices(text, table, k, best),
    )
}

// A root of the type `CityJSON`, whose city objects were found.
fn city_json(
    text: &[u8],
    table: &[u32],
    objects: Option<usize>,
    extra: Option<usize>,
    best: u32,
) -> u32
    requires { (MemberFound (ascii "CityObjects") text.now table.now 0 objects) × (ExtraFound text.now table.now objects extra) }
    ensures { Checked city_json text.now table.now 0 best result }
{
    let a = shapes::object(text, table, 0, best);
    let b = required(
        text,
        table,
        0,
        b"type",
        a,
        |k, best| one_word(text, table, k, b"CityJSON", best),
    );
    let c = required(
        text,
        table,
        0,
        b"version",
        b,
        |k, best| one_word(text, table, k, b"2.0", best),
    );
    let d = required(
        text,
        table,
        0,
        b"transform",
        c,
        |k, best| transform_at(text, table, k, best),
    );
    town(text, table, objects, extra, d)
}

// The root, and the index of its city objects.
pub fn root(text: &[u8], table: &[u32], best: u32) -> Walked
    requires { Node text.now table.now 0 }
    ensures gives { Gives (λ v. least best (city_json v)) text.now table.now 0 result.least }
    ensures indexed_at { IndexedAt text.now table.now result.index }
{
    let objects = nodes::member(text, table, 0, b"CityObjects");
    let mut index = Index {
        offsets: [0; 1024],
        count: 0,
    };
    let extra = fill_index(text, table, objects, &mut index);
    let least = city_json(text, table, objects, extra, best);
    Walked { index, least }
}
