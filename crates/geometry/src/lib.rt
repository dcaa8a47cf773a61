// Rules 7, 8 and 10 to 14 of geometries. Each function takes the least fault so far and gives the least.
// A function whose name ends in `_at` checks the value at its node. An object's function is a line of checks of its members, each by `optional`,
// `required` or, where others use what was found, `required_found`, which are handed the check of the member's value.
#![tactic(auto)]

ghost use Rattle.std.specs.Prelude.{ℕ, Bool, List, [], ◌∷◌};
ghost use Rattle.std.proofs.Math.Option.{some};
ghost use Rattle.utf8.specs.Ascii.{ascii};
ghost use Rattle.words.specs.Words.{geometry_words, is_lod, depth};
ghost use Rattle.nodes.specs.Access.{text_of, first_named, members};
ghost use Rattle.nodes.specs.Faults.{least};
ghost use Rattle.nodes.specs.Says.{Node, Sought, Seeks, Gives, GivesFound};
ghost use Rattle.fields.specs.Says.{StringNode};
ghost use Rattle.shapes.specs.Checks.{Check, all, on, object_kind, string_kind, array_kind, each_element, is_empty};
ghost use Rattle.shapes.specs.Checks as checks;
ghost use Rattle.shapes.specs.Shapes.{shaped};
ghost use Rattle.boundaries.specs.Says.{GivesTwo};
ghost use Rattle.rules.specs.Schema.{geometry_type, surface_type, is_surface_type, boundaries, over_boundary, needs_lod};
ghost use Rattle.rules.specs.Schema as schema;
ghost use Rattle.geometry.specs.Says as says;
ghost use Rattle.geometry.specs.Says.{Checked, CheckedOver, optional, required, MemberFound, TypeAt, CodeAt, SoundAt, Outlined, OwnFault, Overlaid};
ghost use Rattle.geometry.specs.Says.{Callable, Makes, CallableFound, MakesFound, Answers};

use nodes::NO_FAULT;

// A member that may be absent: the check of its value, if it is there.
pub fn optional<F: FnOnce(usize, u32) -> u32>(
    text: &[u8],
    table: &[u32],
    i: usize,
    name: &[u8],
    best: u32,
    check: F,
) -> u32
    requires node { Node text.now table.now i }
    requires callable { Callable text.now table.now (F.pre check) }
    ensures { (c : Check) → Makes text.now table.now (F.post check) c → Checked (optional name.now c) text.now table.now i best result }
{
    match nodes::member(text, table, i, name) {
        Some(k) => check(k, best),
        None => best,
    }
}

// A member that is needed and was sought: rule 8, and the check of its value, if it was found.
pub fn required_found<F: FnOnce(usize, u32) -> u32>(
    text: &[u8],
    table: &[u32],
    i: usize,
    found: Option<usize>,
    best: u32,
    check: F,
) -> u32
    requires sought { (Node text.now table.now i) × (Sought text.now table.now found) }
    requires callable { CallableFound found (F.pre check) }
    ensures { (name : List ℕ) (c : Check) → Seeks (λ v. first_named name (members v)) text.now table.now i found
        → MakesFound text.now table.now found (F.post check) c → Checked (required name c) text.now table.now i best result }
{
    let a = shapes::need(found, text, table, i, best);
    match found {
        Some(k) => check(k, a),
        None => a,
    }
}

// A member that is needed: rule 8, and the check of its value, if it is there.
pub fn required<F: FnOnce(usize, u32) -> u32>(
    text: &[u8],
    table: &[u32],
    i: usize,
    name: &[u8],
    best: u32,
    check: F,
) -> u32
    requires node { Node text.now table.now i }
    requires callable { Callable text.now table.now (F.pre check) }
    ensures { (c : Check) → Makes text.now table.now (F.post check) c → Checked (required name.now c) text.now table.now i best result }
{
    let found = nodes::member(text, table, i, name);
    required_found(text, table, i, found, best, check)
}

// An array (7), and the check of each of its elements.
pub fn array_of<F: Fn(usize, u32) -> u32>(
    text: &[u8],
    table: &[u32],
    i: usize,
    best: u32,
    check: F,
) -> u32
    requires node { Node text.now table.now i }
    requires callable { Callable text.now table.now (F.pre check) }
    ensures { (c : Check) → Makes text.now table.now (F.post check) c
        → Checked (all (array_kind ∷ each_element c ∷ [])) text.now table.now i best result }
{
    let mut least = shapes::array(text, table, i, best);
    for k in nodes::elements(text, table, i) {
        least = check(k, least);
    }
    least
}

// A string (7) whose text passes a test (10).
pub fn string_that<F: FnOnce(usize) -> bool>(
    text: &[u8],
    table: &[u32],
    k: usize,
    best: u32,
    test: F,
) -> u32
    requires node { Node text.now table.now k }
    requires callable { StringNode text.now table.now k → F.pre test k }
    ensures { (ok : List ℕ → Bool) → Answers text.now table.now k (F.post test k) ok
        → Checked (all (string_kind ∷ checks.text 10 ok ∷ [])) text.now table.now k best result }
{
    if !nodes::is_string(text, table, k) {
        return shapes::string(text, table, k, best);
    }
    shapes::unless(test(k), 10, text, table, k, best)
}

// Rules 7, 10, 11 and 14 of a geometry's type, whose code is given.
fn geometry_type_at(
    text: &[u8],
    table: &[u32],
    k: usize,
    code: usize,
    object: usize,
    best: u32,
) -> u32
    requires { CodeAt geometry_words text.now table.now k code }
    ensures { Checked (geometry_type object code) text.now table.now k best result }
{
    if !nodes::is_string(text, table, k) {
        return shapes::string(text, table, k, best);
    }
    if code != 0 {
        return shapes::unless(types::permitted(object, code), 14, text, table, k, best);
    }
    let rule = if fields::is_word(text, table, k, b"GeometryInstance") {
        11
    } else {
        10
    };
    shapes::unless(false, rule, text, table, k, best)
}

// Is the string at a node a level of detail?
fn is_lod(text: &[u8], table: &[u32], k: usize) -> bool
    requires { StringNode text.now table.now k }
    ensures { Gives (λ v. is_lod (text_of v)) text.now table.now k result }
{
    types::is_lod(
        text,
        fields::text_from(text, table, k),
        fields::text_to(text, table, k),
    )
}

// Rules 7 and 10 of a level of detail.
fn lod_at(text: &[u8], table: &[u32], k: usize, best: u32) -> u32
    requires { Node text.now table.now k }
    ensures { Checked schema.lod text.now table.now k best result }
{
    string_that(text, table, k, best, |k| is_lod(text, table, k))
}

// Is the string at a node the type of a surface?
fn is_surface_type(text: &[u8], table: &[u32], k: usize) -> bool
    requires { StringNode text.now table.now k }
    ensures { Gives (λ v. is_surface_type (text_of v)) text.now table.now k result }
{
    let from = fields::text_from(text, table, k);
    let to = fields::text_to(text, table, k);
    words::surface_code(text, from, to) != 0 || types::is_added_name(text, from, to)
}

// Rules 7 and 10 of a surface's type.
fn surface_type_at(text: &[u8], table: &[u32], k: usize, best: u32) -> u32
    requires { Node text.now table.now k }
    ensures { Checked surface_type text.now table.now k best result }
{
    string_that(text, table, k, best, |k| is_surface_type(text, table, k))
}

// A surface.
fn surface(text: &[u8], table: &[u32], i: usize, best: u32) -> u32
    requires { Node text.now table.now i }
    ensures { Gives (λ v. least best (schema.surface v)) text.now table.now i result }
{
    let a = shapes::object(text, table, i, best);
    required(
        text,
        table,
        i,
        b"type",
        a,
        |k, best| surface_type_at(text, table, k, best),
    )
}

// An array of surfaces.
fn surfaces_at(text: &[u8], table: &[u32], i: usize, best: u32) -> u32
    requires { Node text.now table.now i }
    ensures { Checked schema.surfaces text.now table.now i best result }
{
    array_of(
        text,
        table,
        i,
        best,
        |k, best| surface(text, table, k, best),
    )
}

// The boundary that was found, the code of its geometry's type, and whether it is known to have no fault.
#[derive(Clone, Copy)]
struct Outline {
    at: Option<usize>,
    code: usize,
    sound: bool,
}

// Is the boundary at a node well shaped? That is known of a sound one; else `boundaries::shaped` gives `NO_FAULT` back if it finds no fault.
fn is_shaped(text: &[u8], table: &[u32], i: usize, outline: Outline) -> bool
    requires { (Node text.now table.now i) × (SoundAt text.now table.now i outline.code outline.sound) }
    ensures { Gives (λ v. is_empty (shaped (depth outline.code) v)) text.now table.now i result }
{
    outline.sound
        || boundaries::shaped(text, table, i, types::depth_of(outline.code), NO_FAULT) == NO_FAULT
}

// Rule 12 of the values at `v` over the boundary at `b`, which is judged only if the boundary is well shaped, and rule 13 of their integers.
fn over_boundary(
    text: &[u8],
    table: &[u32],
    b: usize,
    v: usize,
    outline: Outline,
    surfaces: usize,
    best: u32,
) -> u32
    requires { Overlaid text.now table.now b v outline }
    ensures { GivesTwo (λ w u. least best (over_boundary surfaces outline.code (some w) u)) text.now table.now b v result }
{
    let depth = types::values_depth_of(outline.code);
    let range = boundaries::ranged(text, table, v, depth, surfaces, best);
    if !is_shaped(text, table, b, outline) {
        return range;
    }
    boundaries::matches(text, table, b, v, depth, range)
}

// The same over the boundary that was found, if it has a code.
fn over_outline(
    text: &[u8],
    table: &[u32],
    v: usize,
    outline: Outline,
    surfaces: usize,
    best: u32,
) -> u32
    requires { (Node text.now table.now v) × (Outlined text.now table.now outline) }
    ensures { CheckedOver (over_boundary surfaces outline.code) text.now table.now outline.at v best result }
{
    match outline.at {
        Some(b) if outline.code != 0 => over_boundary(text, table, b, v, outline, surfaces, best),
        _ => best,
    }
}

// An array of semantic values, over the boundary that was found.
fn values_at(
    text: &[u8],
    table: &[u32],
    v: usize,
    outline: Outline,
    surfaces: usize,
    best: u32,
) -> u32
    requires { (Node text.now table.now v) × (Outlined text.now table.now outline) }
    ensures { CheckedOver (schema.values surfaces outline.code) text.now table.now outline.at v best result }
{
    let a = shapes::array(text, table, v, best);
    over_outline(text, table, v, outline, surfaces, a)
}

// Semantics over the boundary that was found.
fn semantics_at(text: &[u8], table: &[u32], i: usize, outline: Outline, best: u32) -> u32
    requires { (Node text.now table.now i) × (Outlined text.now table.now outline) }
    ensures { CheckedOver (schema.semantics outline.code) text.now table.now outline.at i best result }
{
    let all = nodes::member(text, table, i, b"surfaces");
    let count = fields::count_found(text, table, all);
    let a = shapes::object(text, table, i, best);
    let b = required_found(
        text,
        table,
        i,
        all,
        a,
        |k, best| surfaces_at(text, table, k, best),
    );
    required(
        text,
        table,
        i,
        b"values",
        b,
        |v, best| values_at(text, table, v, outline, count, best),
    )
}

// A boundary: an array (7), its shape (12) and its indices (13).
fn boundary_at(text: &[u8], table: &[u32], k: usize, code: usize, vertices: usize, best: u32) -> u32
    requires { Node text.now table.now k }
    ensures { Checked (boundaries vertices code) text.now table.now k best result }
{
    let kind = shapes::array(text, table, k, best);
    if code == 0 {
        return kind;
    }
    boundaries::boundary(text, table, k, types::depth_of(code), vertices, kind)
}

// The least fault of the boundary that was found, if it has one.
fn boundary_fault(
    text: &[u8],
    table: &[u32],
    found: Option<usize>,
    code: usize,
    vertices: usize,
) -> Option<u32>
    requires { Sought text.now table.now found }
    ensures { OwnFault vertices code text.now table.now found result }
{
    // What `boundaries::boundary` promises is the least of this start and its faults, so a start that no fault reaches tells whether there are any.
    let least = boundary_at(text, table, found?, code, vertices, u32::MAX);
    if least == u32::MAX { None } else { Some(least) }
}

// A geometry's boundary, which is needed, and its semantics. Whether the boundary is sound is told by its own fault.
fn body(text: &[u8], table: &[u32], i: usize, code: usize, vertices: usize, best: u32) -> u32
    requires { Node text.now table.now i }
    ensures { Checked (all (required (ascii "boundaries") (boundaries vertices code) ∷ says.meaning code ∷ []))
        text.now table.now i best result }
{
    let at = nodes::member(text, table, i, b"boundaries");
    let a = shapes::need(at, text, table, i, best);
    let own = boundary_fault(text, table, at, code, vertices);
    let b = own.map_or(a, |fault| nodes::lesser(a, fault));
    let sound = own.is_none();
    let outline = Outline { at, code, sound };
    optional(
        text,
        table,
        i,
        b"semantics",
        b,
        |k, best| semantics_at(text, table, k, outline, best),
    )
}

// Rule 8 of `lod`, which a geometry needs unless its type is `GeometryInstance`.
fn need_lod(
    text: &[u8],
    table: &[u32],
    i: usize,
    kind: Option<usize>,
    found: Option<usize>,
    best: u32,
) -> u32
    requires { (MemberFound (ascii "type") text.now table.now i kind) × (MemberFound (ascii "lod") text.now table.now i found) }
    ensures { Checked needs_lod text.now table.now i best result }
{
    if fields::found_word(text, table, kind, b"GeometryInstance") {
        return best;
    }
    shapes::need(found, text, table, i, best)
}

// A geometry's kind, its type, which was found, with its code, and its `lod`.
fn geometry_words(
    text: &[u8],
    table: &[u32],
    i: usize,
    kind: Option<usize>,
    code: usize,
    object: usize,
    best: u32,
) -> u32
    requires { TypeAt geometry_words text.now table.now i kind code }
    ensures { Checked (all (object_kind ∷ needs_lod ∷ required (ascii "type") (geometry_type object code) ∷ optional (ascii "lod") schema.lod ∷ []))
        text.now table.now i best result }
{
    let level = nodes::member(text, table, i, b"lod");
    let a = shapes::object(text, table, i, best);
    let b = need_lod(text, table, i, kind, level, a);
    let c = required_found(
        text,
        table,
        i,
        kind,
        b,
        |k, best| geometry_type_at(text, table, k, code, object, best),
    );
    level.map_or(c, |k| lod_at(text, table, k, c))
}

// A geometry of an object whose type has the code `object`.
fn geometry(text: &[u8], table: &[u32], i: usize, vertices: usize, object: usize, best: u32) -> u32
    requires { Node text.now table.now i }
    ensures { Gives (λ v. least best (schema.geometry vertices object v)) text.now table.now i result }
{
    let kind = nodes::member(text, table, i, b"type");
    let code = fields::geometry_code(text, table, kind);
    let a = geometry_words(text, table, i, kind, code, object, best);
    body(text, table, i, code, vertices, a)
}

// An array of geometries.
pub fn geometries_at(
    text: &[u8],
    table: &[u32],
    i: usize,
    vertices: usize,
    object: usize,
    best: u32,
) -> u32
    requires { Node text.now table.now i }
    ensures { Checked (schema.geometries vertices object) text.now table.now i best result }
{
    array_of(
        text,
        table,
        i,
        best,
        |k, best| geometry(text, table, k, vertices, object, best),
    )
}
