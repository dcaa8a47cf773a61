// White space and strings of JSON texts (RFC 8259); and why a text is not read.
#![tactic(auto)]

ghost use Rattle.std.specs.Prelude.{◌≡◌, ◌+◌, ◌<◌, ◌≤◌, length};
ghost use Rattle.std.specs.Bool.{MatchBool};
ghost use Rattle.json_text.specs.Machine.{is_blank, is_escape};
ghost use Rattle.json_text.specs.Says.{Found, blanks, Skips, Reads, to, chars_of, esc_of, hex_of, ReadsString, Eight, Marked, Passes, Typed};

use std::num::wrapping_sub_u64;

// Why a text is not read: the offset of a byte that no JSON text has there, or of one that opens a level too many; or that the text is
// longer than 65,535 bytes, or that the table is too short for its length.
#[derive(Clone, Copy, PartialEq, Eq)]
pub enum Unread {
    Bad(usize),
    Deep(usize),
    Long,
    Short,
}

// The offset of a byte that no JSON text has there, or of the text's end, if it ends too early.
#[derive(Clone, Copy, PartialEq, Eq)]
pub struct BadByte {
    pub at: usize,
}

// The byte at the offset, if the text does not end before it.
pub fn byte(text: &[u8], at: usize) -> Result<u8, BadByte>
    ensures { Found text.now at result }
{
    text.get(at).copied().ok_or(BadByte { at })
}

// Is the byte white space? Blanks come first, since a text has more of them than of the other three.
#[tactic(auto, unfolding(crate::specs::Machine::is_blank))]
fn is_blank(b: u8) -> bool
    ensures { result ≡ is_blank b }
{
    b == b' ' || (b < b' ' && matches!(b, b'\n' | b'\r' | b'\t'))
}

// Does the byte end an escape of two bytes?
#[tactic(auto, unfolding(crate::specs::Machine::is_escape))]
fn is_escape(b: u8) -> bool
    ensures { result ≡ is_escape b }
{
    matches!(b, b'"' | b'\\' | b'/' | b'b' | b'f' | b'n' | b'r' | b't')
}

// Is the byte a control character, which no string has as it stands?
fn is_control(b: u8) -> bool
    ensures { MatchBool result (b < 32) (32 ≤ b) }
{
    b < 32
}

// Past a run of white space. Counted by hand: with a `for`, reading a pretty-printed text took 6 in 100 more instructions.
#[inline(never)]
fn blank_run(text: &[u8], at: usize) -> usize
    requires { at ≤ length text.now }
    ensures { Skips blanks is_blank text.now at result }
{
    let mut i = at;
    while i < text.len() {
        if !is_blank(text[i]) {
            return i;
        }
        i += 1;
    }
    i
}

// Past the white space. Mostly there is none.
#[inline(always)]
pub fn skip_blanks(text: &[u8], at: usize) -> usize
    requires { at ≤ length text.now }
    ensures { Skips blanks is_blank text.now at result }
{
    match text.get(at) {
        Some(b) if *b > b' ' => at,
        _ => blank_run(text, at),
    }
}

// Four hexadecimal digits.
fn hex4(text: &[u8], at: usize) -> Result<usize, BadByte>
    requires { at ≤ length text.now }
    ensures { Reads text.now (hex_of 4) (to chars_of) at result }
{
    for i in at..at + 4 {
        if !byte(text, i)?.is_ascii_hexdigit() {
            return Err(BadByte { at: i });
        }
    }
    Ok(at + 4)
}

// An escape, after its backslash.
fn escape(text: &[u8], at: usize) -> Result<usize, BadByte>
    requires { at ≤ length text.now }
    ensures { Reads text.now esc_of (to chars_of) at result }
{
    let b = byte(text, at)?;
    if b == b'u' {
        return hex4(text, at + 1);
    }
    if is_escape(b) {
        return Ok(at + 1);
    }
    Err(BadByte { at })
}

// A string, after its first quote. No `for` here: the place goes on by one byte or by an escape.
pub fn string(text: &[u8], at: usize) -> Result<usize, BadByte>
    requires { at ≤ length text.now }
    ensures { ReadsString text.now at result }
{
    let mut i = at;
    loop {
        match byte(text, i)? {
            b'"' => return Ok(i + 1),
            b'\\' => i = escape(text, i + 1)?,
            b if is_control(b) => return Err(BadByte { at: i }),
            _ => i += 1,
        }
    }
}

// The eight bytes from i on as one number, the first lowest.
fn eight(text: &[u8], i: usize) -> u64
    requires { i + 8 ≤ length text.now }
    ensures { Eight text.now i result }
{
    text[i] as u64
        | (text[i + 1] as u64) << 8
        | (text[i + 2] as u64) << 16
        | (text[i + 3] as u64) << 24
        | (text[i + 4] as u64) << 32
        | (text[i + 5] as u64) << 40
        | (text[i + 6] as u64) << 48
        | (text[i + 7] as u64) << 56
}

// Bit 7 of each byte that is a quote, a backslash or below 32; above the lowest such byte that of other bytes may be set too.
fn marks(x: u64) -> u64
    ensures { Marked x result }
{
    (wrapping_sub_u64(x ^ 0x2222_2222_2222_2222, 0x0101_0101_0101_0101)
        | wrapping_sub_u64(x ^ 0x5c5c_5c5c_5c5c_5c5c, 0x0101_0101_0101_0101)
        | wrapping_sub_u64(x, 0x2020_2020_2020_2020))
        & (x ^ 0xffff_ffff_ffff_ffff)
        & 0x8080_8080_8080_8080
}

// Past bytes that a string may have as they stand: up to one that it may not, or to less than eight bytes before the text's end.
// By hand: `chunks_exact` is no plainer, since the answer is a place in the text, and a chunk's number would have to become one again.
fn plain_end(text: &[u8], at: usize) -> usize
    requires { at ≤ length text.now }
    ensures { Passes text.now at result }
{
    let mut i = at;
    while text.len() - i >= 8 {
        let m = marks(eight(text, i));
        if m != 0 {
            return i + (u64::trailing_zeros(m) / 8) as usize;
        }
        i += 8;
    }
    i
}

// A string, after its first quote: most have no escape.
pub fn closing(text: &[u8], at: usize) -> Result<usize, BadByte>
    requires { at ≤ length text.now }
    ensures { ReadsString text.now at result }
{
    let q = plain_end(text, at);
    if let Some(b'"') = text.get(q) {
        return Ok(q + 1);
    }
    string(text, q)
}

// Does `"type":"` stand here: the name that CityJSON texts have most, its colon, and the quote of a string?
pub fn is_type(text: &[u8], at: usize) -> bool
    requires { at ≤ length text.now }
    ensures { Typed text.now at result }
{
    if text.len() - at < 8 {
        return false;
    }
    eight(text, at) == 0x223a_2265_7079_7422
}
