// What the rules look up in objects, over what a search for a member found.
#![tactic(auto)]

ghost use Rattle.std.specs.Prelude.{◌+◌, ◌-◌, ◌<◌, ◌≡◌, length, get_or};
ghost use Rattle.utf8.specs.Utf8.{same};
ghost use Rattle.words.specs.Words.{object_words, geometry_words, code_of};
ghost use Rattle.nodes.specs.Access.{text_of};
ghost use Rattle.nodes.specs.Says.{Node, Sought, Gives, GivesFound};
ghost use Rattle.fields.specs.Fields.{text_in, count_in};
ghost use Rattle.fields.specs.Says.{StringNode, GivesSpan};

// The index of the city objects: the node of the name of each of the first 1,024, in the text's order, then zeros, and how many of them there are.
#[derive(Clone, Copy)]
pub struct Index {
    pub offsets: [usize; 1024],
    pub count: usize,
}

// Where the bytes between the quotes of the string at a node begin in the text.
pub fn text_from(text: &[u8], table: &[u32], i: usize) -> usize
    requires { StringNode text.now table.now i }
    ensures { result ≡ get_or table.now i 0 + 1 }
{
    nodes::start(table, i) + 1
}

// Where they end.
pub fn text_to(text: &[u8], table: &[u32], i: usize) -> usize
    requires { StringNode text.now table.now i }
    ensures { result ≡ get_or table.now (i + 1) 0 - 1 }
{
    nodes::end(table, i) - 1
}

// Where the bytes between the quotes of the string that was found stand in the text: none if no string was.
pub fn quoted(text: &[u8], table: &[u32], found: Option<usize>) -> Option<(usize, usize)>
    requires { Sought text.now table.now found }
    ensures { GivesSpan text.now table.now found result }
{
    let k = found?;
    if !nodes::is_string(text, table, k) {
        return None;
    }
    Some((text_from(text, table, k), text_to(text, table, k)))
}

// The code of the object type that was found; 0 if none was, or it is no such word (`code_of` says so).
pub fn object_code(text: &[u8], table: &[u32], found: Option<usize>) -> usize
    requires { Sought text.now table.now found }
    ensures { GivesFound (λ o. code_of object_words (text_in o)) text.now table.now found result }
{
    match quoted(text, table, found) {
        Some((from, to)) => words::object_code(text, from, to),
        None => 0,
    }
}

// The code of the geometry type that was found, likewise.
pub fn geometry_code(text: &[u8], table: &[u32], found: Option<usize>) -> usize
    requires { Sought text.now table.now found }
    ensures { GivesFound (λ o. code_of geometry_words (text_in o)) text.now table.now found result }
{
    match quoted(text, table, found) {
        Some((from, to)) => words::geometry_code(text, from, to),
        None => 0,
    }
}

// Is the string at a node that word, which is not empty?
pub fn is_word(text: &[u8], table: &[u32], i: usize, word: &[u8]) -> bool
    requires { (Node text.now table.now i) × (0 < length word.now) }
    ensures { Gives (λ v. same word.now (text_of v)) text.now table.now i result }
{
    if !nodes::is_string(text, table, i) {
        return false;
    }
    compare::is_word(
        text,
        text_from(text, table, i),
        text_to(text, table, i),
        word,
    )
}

// Was a string found that is that word, which is not empty?
pub fn found_word(text: &[u8], table: &[u32], found: Option<usize>, word: &[u8]) -> bool
    requires { (Sought text.now table.now found) × (0 < length word.now) }
    ensures { GivesFound (λ o. same word.now (text_in o)) text.now table.now found result }
{
    let Some(k) = found else {
        return false;
    };
    is_word(text, table, k, word)
}

// How many elements were found.
pub fn count_found(text: &[u8], table: &[u32], found: Option<usize>) -> usize
    requires { Sought text.now table.now found }
    ensures { GivesFound count_in text.now table.now found result }
{
    let Some(k) = found else {
        return 0;
    };
    nodes::count(text, table, k)
}
