// Strings of JSON texts compared, with a word and with each other. A string is given by the text and two offsets: `at`, just after its opening quote,
// and `end`, its closing quote.
#![tactic(auto)]

ghost use Rattle.std.specs.Prelude.{◌≡◌};
ghost use Rattle.std.specs.Result.{MatchResult};
ghost use Rattle.utf8.specs.Utf8.{same};
ghost use Rattle.strings.specs.Spans.{Span, decode_at, begin_apart};
ghost use Rattle.compare.specs.Says.{TellsSame, Alike};

use strings::Decoder;

// Are two strings the same as they stand? Where a backslash comes first, or one ends before the other: how many bytes are alike before it.
#[inline(always)]
fn same_plain(one: &[u8], other: &[u8]) -> Result<bool, usize>
    ensures { MatchResult result (TellsSame one.now other.now) (Alike one.now other.now) }
{
    let least = one.len().min(other.len());
    for k in 0..least {
        let a = one[k];
        let b = other[k];
        if a != b {
            return (a != b'\\' && b != b'\\').then_some(false).ok_or(k);
        }
        if a == b'\\' {
            return Err(k);
        }
    }
    if one.len() == other.len() {
        return Ok(true);
    }
    Err(least)
}

// Does the string stand for `word`, as it is decoded?
#[inline(never)]
fn is_word_decoded(text: &[u8], at: usize, end: usize, word: &[u8]) -> bool
    requires { Span text.now at end }
    ensures { result ≡ same word.now (decode_at text.now at end) }
{
    word.iter().copied().eq(Decoder::new(text, at, end))
}

// Does the string stand for `word`? What is alike before a backslash is not read again.
pub fn is_word(text: &[u8], at: usize, end: usize, word: &[u8]) -> bool
    requires { Span text.now at end }
    ensures { result ≡ same word.now (decode_at text.now at end) }
{
    match same_plain(word, &text[at..end]) {
        Ok(answer) => answer,
        Err(k) => is_word_decoded(text, at + k, end, &word[k..]),
    }
}

// Do two strings stand for the same bytes, as they are decoded?
#[inline(never)]
fn same_decoded(text: &[u8], at: usize, end: usize, at2: usize, end2: usize) -> bool
    requires { (Span text.now at end) × (Span text.now at2 end2) }
    ensures { result ≡ same (decode_at text.now at end) (decode_at text.now at2 end2) }
{
    Decoder::new(text, at, end).eq(Decoder::new(text, at2, end2))
}

// Do two strings stand for the same bytes? What is alike before a backslash is not read again.
pub fn same_string(text: &[u8], at: usize, end: usize, at2: usize, end2: usize) -> bool
    requires { (Span text.now at end) × (Span text.now at2 end2) }
    ensures { result ≡ same (decode_at text.now at end) (decode_at text.now at2 end2) }
{
    match same_plain(&text[at..end], &text[at2..end2]) {
        Ok(answer) => answer,
        Err(k) => same_decoded(text, at + k, end, at2 + k, end2),
    }
}

// Do two strings begin with different bytes, neither of them a backslash? Then they do not stand for the same bytes.
pub fn apart(text: &[u8], at: usize, end: usize, at2: usize, end2: usize) -> bool
    requires { (Span text.now at end) × (Span text.now at2 end2) }
    ensures { result ≡ begin_apart text.now at end at2 end2 }
{
    if at >= end || at2 >= end2 || text[at] == text[at2] || text[at] == b'\\' {
        return false;
    }
    text[at2] != b'\\'
}
