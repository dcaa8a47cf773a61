// Strings of JSON texts (RFC 8259, section 7). A string is given by the text and two offsets: `at`, just after its opening quote, and `end`, its closing quote.
#![tactic(auto)]

ghost use Rattle.std.specs.Prelude.{◌+◌, ◌-◌, ◌%◌, ◌^◌, ◌≤◌, ◌<◌, ◌≡◌, ◌&&◌, length, get_or, leb, Some};
ghost use Rattle.utf8.specs.Bytes.{le};
ghost use Rattle.utf8.specs.Utf8.{encode};
ghost use Rattle.strings.specs.Strings.{hex_value, escaped, paired};
ghost use Rattle.strings.specs.Spans.{Span, decode_at, unpaired_at, Copied, first_of, has_byte};
ghost use Rattle.strings.specs.Ahead.{ahead, away};
ghost use Rattle.strings.specs.Parts.{unit_at, Halves, Escapes, Plain};

mod decoder;

pub use decoder::Decoder;

// An escape: of two bytes, for a byte; or \uXXXX or a pair of them, for a character, up to an offset.
#[derive(Drop)]
enum Escape {
    Short(u8),
    Long(u32, usize),
}

// The value of a hexadecimal digit.
fn hex_value(b: u8) -> u32
    ensures { (result ≡ hex_value b) × (result ≤ 168) }
{
    let n = u32::from(b);
    match b {
        ..=b'9' => n.saturating_sub(48),
        ..=b'F' => n - 55,
        _ => n.saturating_sub(87),
    }
}

// The number that the four hexadecimal digits at `at` name.
fn four_digits(text: &[u8], at: usize) -> u32
    requires { at + 4 ≤ length text.now }
    ensures { (result ≡ unit_at text.now at) × (result ≤ 733992) }
{
    let a = hex_value(text[at]);
    let b = hex_value(text[at + 1]);
    let c = hex_value(text[at + 2]);
    let d = hex_value(text[at + 3]);
    ((a * 16 + b) * 16 + c) * 16 + d
}

// What a backslash and this byte stand for.
fn short(b: u8) -> u8
    ensures { result ≡ escaped b }
{
    match b {
        b'b' => 8,
        b'f' => 12,
        b'n' => 10,
        b'r' => 13,
        b't' => 9,
        _ => b,
    }
}

// The low surrogate whose escape \uXXXX stands at `at`, if one does.
fn low_at(text: &[u8], at: usize, end: usize) -> Option<u32>
    requires { Span text.now at end }
    ensures { Halves text.now at end result }
{
    if end - at < 6 || text[at] != b'\\' || text[at + 1] != b'u' {
        return None;
    }
    match four_digits(text, at + 2) {
        w @ 0xDC00..=0xDFFF => Some(w),
        _ => None,
    }
}

// The character that a high and a low surrogate name.
fn pair(u: u32, w: u32) -> u32
    requires { (0xD800 ≤ u) × (u ≤ 0xDBFF) × (0xDC00 ≤ w) × (w ≤ 0xDFFF) }
    ensures { result ≡ paired u w }
{
    0x10000 + (u - 0xD800) * 0x400 + (w - 0xDC00)
}

// The character that the whole escape \uXXXX at `at` names, together with the low surrogate after a high one.
fn character(text: &[u8], at: usize, end: usize) -> Escape
    requires { (Span text.now at end) × (at + 6 ≤ end) × (get_or text.now at 0 ≡ 92) × (get_or text.now (at + 1) 0 ≡ 117) }
    ensures { Escapes text.now at end (Some result) }
{
    let u = four_digits(text, at + 2);
    if u < 0xD800 || u > 0xDBFF {
        return Escape::Long(u, at + 6);
    }
    match low_at(text, at + 6, end) {
        Some(w) => Escape::Long(pair(u, w), at + 12),
        None => Escape::Long(u, at + 6),
    }
}

// The escape whose backslash stands at `at`, if the string has the whole of it.
#[inline(never)]
fn escape_at(text: &[u8], at: usize, end: usize) -> Option<Escape>
    requires { (Span text.now at end) × (at < end) × (get_or text.now at 0 ≡ 92) }
    ensures { Escapes text.now at end result }
{
    if end - at < 2 {
        return None;
    }
    let b = text[at + 1];
    if b != b'u' {
        return Some(Escape::Short(short(b)));
    }
    if end - at < 6 {
        return None;
    }
    Some(character(text, at, end))
}

// A byte 10xxxxxx with the lowest six bits of `n`.
fn tail_of(n: u32) -> u32
    ensures { (result ≡ 0x80 + n % 64) × (result < 192) }
{
    0x80 + n % 64
}

// The bytes of a character, the first one in the lowest eight bits, and how many they are.
#[inline(never)]
fn encoded(u: u32) -> (u32, u32)
    requires { u < 0x110000 }
    ensures { (le result.1 result.0 ≡ encode u) × (0 < result.1) × (result.1 ≤ 4) }
{
    if u < 0x80 {
        return (u, 1);
    }
    let a = tail_of(u);
    if u < 0x800 {
        return (0xC0 + u / 64 + a * 256, 2);
    }
    let b = tail_of(u / 64);
    if u < 0x10000 {
        return (0xE0 + u / 4096 + b * 256 + a * 65536, 3);
    }
    let c = tail_of(u / 4096);
    (0xF0 + u / 262144 + c * 256 + b * 65536 + a * 16777216, 4)
}

// How many bytes of a string come before its first backslash. Most strings have none.
fn plain_length(raw: &[u8]) -> usize
    ensures { Plain raw.now result }
{
    if !has_escape(raw) {
        return raw.len();
    }
    for (k, b) in raw.iter().enumerate() {
        let escape = *b == b'\\';
        if escape {
            return k;
        }
    }
    raw.len()
}

// How many bytes the decoder has ahead.
fn ahead_length(rest: Decoder) -> usize
    requires { away rest < 2 ^ 64 }
    ensures { result ≡ length (ahead rest.entry) }
{
    rest.count()
}

// How many bytes the string stands for. What comes before a backslash stands for itself.
pub fn decoded_length(text: &[u8], at: usize, end: usize) -> usize
    requires { Span text.now at end }
    ensures { result ≡ length (decode_at text.now at end) }
{
    let n = plain_length(&text[at..end]);
    n + ahead_length(Decoder::new(text, at + n, end))
}

// Writes bytes over as many others. Not `copy_from_slice`, for which a program in C would need `memmove` also.
fn overwrite(part: &mut [u8], bytes: &[u8])
    requires { length part.old ≡ length bytes.now }
    ensures { part.new ≡ bytes.now }
{
    for k in 0..bytes.len() {
        part[k] = bytes[k];
    }
}

// Writes bytes to `out` from `to` on; where they end.
fn put(bytes: &[u8], out: &mut [u8], to: usize) -> usize
    requires { to + length bytes.now ≤ length out.old }
    ensures { Copied bytes.now out.old out.new to result }
{
    let end = to + bytes.len();
    overwrite(&mut out[to..end], bytes);
    end
}

// Writes the bytes that the decoder has ahead to `out` from `to` on; where they end.
#[inline(never)]
fn copy_ahead(rest: Decoder, out: &mut [u8], to: usize) -> usize
    requires { to + length (ahead rest) ≤ length out.old }
    ensures { Copied (ahead rest.entry) out.old out.new to result }
{
    let mut o = to;
    for b in rest {
        out[o] = b;
        o += 1;
    }
    o
}

// Writes the bytes that the string stands for to `out` from `to` on; where they end.
pub fn copy(text: &[u8], at: usize, end: usize, out: &mut [u8], to: usize) -> usize
    requires { (Span text.now at end) × (to + length (decode_at text.now at end) ≤ length out.old) }
    ensures { Copied (decode_at text.now at end) out.old out.new to result }
{
    let n = plain_length(&text[at..end]);
    let o = put(&text[at..at + n], out, to);
    copy_ahead(Decoder::new(text, at + n, end), out, o)
}

// Is the character that an escape names a surrogate? Then it is not paired.
fn is_surrogate(u: u32) -> bool
    ensures { result ≡ leb 0xD800 u && leb u 0xDFFF }
{
    matches!(u, 0xD800..=0xDFFF)
}

// The place of the first escape of a surrogate that is not paired: its backslash. No `for` here: the place goes on by the length of what stands there.
pub fn first_unpaired(text: &[u8], at: usize, end: usize) -> Option<usize>
    requires { Span text.now at end }
    ensures { result ≡ first_of (unpaired_at text.now at end) }
{
    let mut i = at;
    while i < end {
        if text[i] != b'\\' {
            i += 1;
            continue;
        }
        match escape_at(text, i, end)? {
            Escape::Short(_) => {
                i += 2;
            }
            Escape::Long(u, to) => {
                if is_surrogate(u) {
                    return Some(i);
                }
                i = to;
            }
        }
    }
    None
}

// Has the text a backslash?
pub fn has_escape(text: &[u8]) -> bool
    ensures { result ≡ has_byte 92 text.now }
{
    text.contains(&b'\\')
}
