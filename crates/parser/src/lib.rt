// JSON texts (RFC 8259): a text is read once, and the node table of its tree is written.
#![tactic(auto)]

ghost use Rattle.std.specs.Prelude.{◌≡◌, ◌+◌, ◌≤◌, length};
ghost use Rattle.json_text.specs.Machine.{is_blank};
ghost use Rattle.json_text.specs.Machine.Mode.{want};
ghost use Rattle.json_text.specs.Says.{blanks, Skips, Plain};
ghost use Rattle.json_text.specs.Parse.{Tells};
ghost use Rattle.parser.specs.Says.{Fits, Wrote, Quote, Atom, Ready, Opened, opener, closer, start, Told, Colons, Names, Begins, Follows, Member, Entered, unread_of};
ghost use Rattle.parser.specs.declared.Stop.TheVariants.{Bad, Deep};

use json_text::{BadByte, Unread, byte};

// What a value takes: the text up to before `end`, and the words of the table up to before `free`.
#[derive(Clone, Copy, PartialEq, Eq)]
struct Taken {
    end: usize,
    free: usize,
}

// Why no value is read: the offset of a byte that no JSON text has there, or of one that opens a level too many.
#[derive(Clone, Copy, PartialEq, Eq)]
enum Stop {
    Bad(usize),
    Deep(usize),
}

impl From<BadByte> for Stop {
    ghost from_gives = { λ b e. e ≡ Bad b.at };

    fn from(b: BadByte) -> Stop {
        Stop::Bad(b.at)
    }
}

// What stands in a container after white space, at an offset: the byte that closes it, or what there is more of it. One offset for both, so
// that the compiler need not choose between two.
#[derive(Clone, Copy, PartialEq, Eq)]
enum Next {
    Closed(usize),
    More(usize),
}

// The kinds of container.
#[derive(Clone, Copy, PartialEq, Eq)]
enum Kind {
    Array,
    Object,
}

// The byte that closes a container.
fn closer(kind: Kind) -> u8
    ensures { result ≡ closer kind }
{
    match kind {
        Kind::Array => b']',
        Kind::Object => b'}',
    }
}

// Writes a node, the three words at i.
fn put_node(table: &mut [u32], i: usize, start: usize, end: usize, next: usize)
    requires { Fits table.old i start end next }
    ensures { Wrote table.old table.new i start end next }
{
    table[i] = start as u32;
    table[i + 1] = end as u32;
    table[i + 2] = next as u32;
}

// A value that opens no level, and its node at n.
fn atom(text: &[u8], at: usize, table: &mut [u32], n: usize) -> Result<Taken, Stop>
    requires { (Plain text.now at) × (Ready text.now table.old at 0 32 n) }
    ensures { Atom text.now table.old table.new at n result }
{
    let end = scalars::scalar(text, at)?;
    put_node(table, n, at, end, n + 3);
    Ok(Taken { end, free: n + 3 })
}

// A string as a value, whose quote stands at `at`, and its node at n.
#[inline(always)]
fn text_node(text: &[u8], at: usize, table: &mut [u32], n: usize) -> Result<Taken, Stop>
    requires { (Quote text.now at) × (Ready text.now table.old at 0 32 n) }
    ensures { Atom text.now table.old table.new at n result }
{
    let end = json_text::closing(text, at + 1)?;
    put_node(table, n, at, end, n + 3);
    Ok(Taken { end, free: n + 3 })
}

// Past the white space before a name, whose quote mostly stands there at once.
fn name_start(text: &[u8], at: usize) -> usize
    requires { at ≤ length text.now }
    ensures { Skips blanks is_blank text.now at result }
{
    if let Some(b'"') = text.get(at) {
        return at;
    }
    json_text::skip_blanks(text, at)
}

// The colon after a name, which mostly follows at once.
fn colon(text: &[u8], at: usize) -> Result<usize, BadByte>
    requires { at ≤ length text.now }
    ensures { Colons text.now at result }
{
    if let Some(b':') = text.get(at) {
        return Ok(at + 1);
    }
    let i = json_text::skip_blanks(text, at);
    if byte(text, i)? != b':' {
        return Err(BadByte { at: i });
    }
    Ok(i + 1)
}

// The name of a member with its colon, and its node at n.
fn member_name(text: &[u8], at: usize, table: &mut [u32], n: usize) -> Result<usize, BadByte>
    requires { Ready text.now table.old at 0 32 n }
    ensures { Names text.now table.old table.new at n result }
{
    if json_text::is_type(text, at) {
        put_node(table, n, at, at + 6, n + 3);
        return Ok(at + 7);
    }
    let i = name_start(text, at);
    if byte(text, i)? != b'"' {
        return Err(BadByte { at: i });
    }
    let e = json_text::closing(text, i + 1)?;
    put_node(table, n, i, e, n + 3);
    colon(text, e)
}

// What follows the byte that opens a container, which the byte `close` closes.
fn opening(text: &[u8], at: usize, close: u8) -> Result<Next, BadByte>
    requires { at ≤ length text.now }
    ensures { Begins text.now at close result }
{
    let i = json_text::skip_blanks(text, at);
    if byte(text, i)? == close {
        return Ok(Next::Closed(i));
    }
    Ok(Next::More(i))
}

// What follows a value in a container, which the byte `close` closes: a comma, if there is more, which mostly follows at once.
fn after(text: &[u8], at: usize, close: u8) -> Result<Next, BadByte>
    requires { at ≤ length text.now }
    ensures { Follows text.now at close result }
{
    if let Some(b',') = text.get(at) {
        return Ok(Next::More(at));
    }
    let i = json_text::skip_blanks(text, at);
    let b = byte(text, i)?;
    if b == close {
        return Ok(Next::Closed(i));
    }
    if b != b',' {
        return Err(BadByte { at: i });
    }
    Ok(Next::More(i))
}

// A value, where so many levels may still be opened, and its words from n on.
#[cycle(values)]
fn value(text: &[u8], at: usize, levels: usize, table: &mut [u32], n: usize) -> Result<Taken, Stop>
    requires { Ready text.now table.old at levels 32 n }
    ensures { Told text.now table.old table.new want at levels 32 n result }
{
    let i = json_text::skip_blanks(text, at);
    let b = byte(text, i)?;
    if b == b'[' {
        if levels == 0 {
            return Err(Stop::Deep(i));
        }
        return container(Kind::Array, text, i, levels - 1, table, n);
    }
    if b == b'{' {
        if levels == 0 {
            return Err(Stop::Deep(i));
        }
        return container(Kind::Object, text, i, levels - 1, table, n);
    }
    atom(text, i, table, n)
}

// A value, as `value` reads it: a string is looked for first.
#[cycle(values)]
fn item(text: &[u8], at: usize, levels: usize, table: &mut [u32], n: usize) -> Result<Taken, Stop>
    requires { Ready text.now table.old at levels 32 n }
    ensures { Told text.now table.old table.new want at levels 32 n result }
{
    if let Some(b'"') = text.get(at) {
        return text_node(text, at, table, n);
    }
    value(text, at, levels, table, n)
}

// An element of an array, as `value` reads it: most are integers, which are looked for first.
#[cycle(values)]
fn element(
    text: &[u8],
    at: usize,
    levels: usize,
    table: &mut [u32],
    n: usize,
) -> Result<Taken, Stop>
    requires { Ready text.now table.old at levels 32 n }
    ensures { Told text.now table.old table.new want at levels 32 n result }
{
    let Some(end) = scalars::digits_end(text, at) else {
        return item(text, at, levels, table, n);
    };
    put_node(table, n, at, end, n + 3);
    Ok(Taken { end, free: n + 3 })
}

// A member, where so many levels may still be opened: its name's node at n, and its value's words after it.
#[cycle(values)]
fn member(text: &[u8], at: usize, levels: usize, table: &mut [u32], n: usize) -> Result<Taken, Stop>
    requires { Ready text.now table.old at levels 32 n }
    ensures { Member text.now table.old table.new at levels n result }
{
    let v = member_name(text, at, table, n)?;
    item(text, v, levels, table, n + 3)
}

// An element or a member, by the kind of the container.
#[cycle(values)]
fn entry(
    kind: Kind,
    text: &[u8],
    at: usize,
    levels: usize,
    table: &mut [u32],
    n: usize,
) -> Result<Taken, Stop>
    requires { Ready text.now table.old at levels 32 n }
    ensures { Entered kind text.now table.old table.new at levels n result }
{
    match kind {
        Kind::Array => element(text, at, levels, table, n),
        Kind::Object => member(text, at, levels, table, n),
    }
}

// A container, whose first byte stands at `at`: the words of what it holds from n + 3 on, and its node at n when it closes. It is inlined, so
// that each kind has a loop of its own.
#[cycle(values)]
#[inline(always)]
fn container(
    kind: Kind,
    text: &[u8],
    at: usize,
    levels: usize,
    table: &mut [u32],
    n: usize,
) -> Result<Taken, Stop>
    requires { Opened (opener kind) text.now table.old at levels n }
    ensures { Told text.now table.old table.new (start kind at) (at + 1) levels 31 n result }
{
    let close = closer(kind);
    let mut i = match opening(text, at + 1, close)? {
        Next::Closed(e) => {
            let end = e + 1;
            put_node(table, n, at, end, n + 3);
            return Ok(Taken { end, free: n + 3 });
        }
        Next::More(s) => s,
    };
    let mut m = n + 3;
    // No `for` here: where the next entry begins is known when this one is read.
    loop {
        let taken = entry(kind, text, i, levels, table, m)?;
        m = taken.free;
        match after(text, taken.end, close)? {
            Next::Closed(e) => {
                let end = e + 1;
                put_node(table, n, at, end, m);
                return Ok(Taken { end, free: m });
            }
            Next::More(comma) => i = comma + 1,
        }
    }
}

impl From<Stop> for Unread {
    ghost from_gives = { λ s e. e ≡ unread_of s };

    fn from(s: Stop) -> Unread {
        match s {
            Stop::Bad(q) => Unread::Bad(q),
            Stop::Deep(q) => Unread::Deep(q),
        }
    }
}

// Reads a text, and writes the node table of its tree.
pub fn parse(text: &[u8], table: &mut [u32]) -> Result<usize, Unread>
    ensures { Tells text.now table.old table.new result }
{
    if text.len() > 65535 {
        return Err(Unread::Long);
    }
    if 2 * table.len() < 3 * text.len() + 99 {
        return Err(Unread::Short);
    }
    let taken = value(text, 0, 32, table, 0)?;
    let j = json_text::skip_blanks(text, taken.end);
    if j < text.len() {
        return Err(Unread::Bad(j));
    }
    Ok(taken.free)
}
