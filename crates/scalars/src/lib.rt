// The scalars of JSON texts (RFC 8259) that are no strings, numerals and words, and any scalar.
#![tactic(auto)]

ghost use Rattle.std.specs.Prelude.{◌≤◌, length};
ghost use Rattle.utf8.specs.Ascii.{is_digit};
ghost use Rattle.json_text.specs.Machine.Mode.{neg, nought, int, dot, mant, exp, sign};
ghost use Rattle.json_text.specs.Says.{digital, Skips, Reads, to, numbered, ReadsWord, Plain, Scalar, Digits};

use json_text::{BadByte, byte};

// Past the digits. (Tried, and slower on a dense text: a `for` over the offsets, some 5 % more instructions, and `take_while` with `count`.)
fn skip_digits(text: &[u8], at: usize) -> usize
    requires { at ≤ length text.now }
    ensures { Skips digital is_digit text.now at result }
{
    let mut i = at;
    while i < text.len() {
        if !text[i].is_ascii_digit() {
            return i;
        }
        i += 1;
    }
    i
}

// One digit or more: those of a fraction, or those of an exponent.
fn some_digits(text: &[u8], at: usize) -> Result<usize, BadByte>
    requires { at ≤ length text.now }
    ensures { (Reads text.now dot (to mant) at result) × (Reads text.now sign (numbered text.now) at result) }
{
    if !byte(text, at)?.is_ascii_digit() {
        return Err(BadByte { at });
    }
    Ok(skip_digits(text, at + 1))
}

// An exponent, after its letter. Few numerals have one, so it stays out of line, and what looks for one is inlined.
#[inline(never)]
fn exponent(text: &[u8], at: usize) -> Result<usize, BadByte>
    requires { at ≤ length text.now }
    ensures { Reads text.now exp (numbered text.now) at result }
{
    match byte(text, at)? {
        b'+' => some_digits(text, at + 1),
        b'-' => some_digits(text, at + 1),
        _ => some_digits(text, at),
    }
}

// An exponent, or none.
#[inline(always)]
fn maybe_exponent(text: &[u8], at: usize) -> Result<usize, BadByte>
    requires { at ≤ length text.now }
    ensures { Reads text.now mant (numbered text.now) at result }
{
    match text.get(at) {
        Some(b'e') => exponent(text, at + 1),
        Some(b'E') => exponent(text, at + 1),
        _ => Ok(at),
    }
}

// A fraction and an exponent, or one of them, or none.
#[inline(always)]
fn maybe_fraction(text: &[u8], at: usize) -> Result<usize, BadByte>
    requires { at ≤ length text.now }
    ensures { Reads text.now nought (numbered text.now) at result }
{
    match text.get(at) {
        Some(b'.') => maybe_exponent(text, some_digits(text, at + 1)?),
        _ => maybe_exponent(text, at),
    }
}

// The rest of a numeral, after its first digit, which is not 0.
fn integer(text: &[u8], at: usize) -> Result<usize, BadByte>
    requires { at ≤ length text.now }
    ensures { Reads text.now int (numbered text.now) at result }
{
    maybe_fraction(text, skip_digits(text, at))
}

// A numeral, after its minus sign.
fn negative(text: &[u8], at: usize) -> Result<usize, BadByte>
    requires { at ≤ length text.now }
    ensures { Reads text.now neg (numbered text.now) at result }
{
    let b = byte(text, at)?;
    if b == b'0' {
        return maybe_fraction(text, at + 1);
    }
    if b.is_ascii_digit() {
        return integer(text, at + 1);
    }
    Err(BadByte { at })
}

// The bytes of a word.
fn word(text: &[u8], at: usize, word: &[u8]) -> Result<usize, BadByte>
    requires { at ≤ length text.now }
    ensures { ReadsWord text.now word.now at result }
{
    for (k, w) in word.iter().enumerate() {
        if byte(text, at + k)? != *w {
            return Err(BadByte { at: at + k });
        }
    }
    Ok(at + word.len())
}

// A value that opens no level: at a byte that is no blank, no bracket and no brace.
pub fn scalar(text: &[u8], at: usize) -> Result<usize, BadByte>
    requires { Plain text.now at }
    ensures { Scalar text.now at result }
{
    match text[at] {
        b'"' => json_text::closing(text, at + 1),
        b'-' => negative(text, at + 1),
        b'0' => maybe_fraction(text, at + 1),
        b't' => word(text, at + 1, b"rue"),
        b'f' => word(text, at + 1, b"alse"),
        b'n' => word(text, at + 1, b"ull"),
        b'1'..=b'9' => integer(text, at + 1),
        _ => Err(BadByte { at }),
    }
}

// Past an integer that is written with digits alone, the first not 0, and does not end the text, if one stands there.
pub fn digits_end(text: &[u8], at: usize) -> Option<usize>
    ensures { Digits text.now at result }
{
    let Some(b'1'..=b'9') = text.get(at) else {
        return None;
    };
    let e = skip_digits(text, at + 1);
    match text.get(e)? {
        b'.' | b'e' | b'E' => None,
        _ => Some(e),
    }
}
