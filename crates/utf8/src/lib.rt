// Whole characters of UTF-8 (RFC 3629): how many bytes of a text they make up.
#![tactic(auto)]

ghost use Rattle.std.specs.Prelude.{◌+◌, ◌≤◌, ◌<◌, true, [], ◌∷◌, ◌≡◌, length, drop};
ghost use Rattle.utf8.specs.Utf8.{size, whole_length};
ghost use Rattle.utf8.specs.Rows.{utf8_tail, matches};
ghost use Rattle.utf8.specs.Rows.Range.{◌to◌};
ghost use Rattle.utf8.specs.Says.{found, Passed, Under};

// Has the text a byte from `low` to `high` at `at`?
fn has(text: &[u8], at: usize, low: u8, high: u8) -> bool
    ensures { result ≡ matches (low to high ∷ []) (drop at text.now) }
{
    match text.get(at) {
        Some(b) => low <= *b && *b <= high,
        None => false, // The text ends here.
    }
}

// UTF8-tail = %x80-BF
fn tail(text: &[u8], at: usize) -> bool
    ensures { result ≡ matches (utf8_tail ∷ []) (drop at text.now) }
{
    has(text, at, 0x80, 0xBF)
}

// 2( UTF8-tail ). This and the next stay two functions: a number of tails would need a loop for one `&&`, and is no plainer.
fn two_tails(text: &[u8], at: usize) -> bool
    ensures { result ≡ matches (utf8_tail ∷ utf8_tail ∷ []) (drop at text.now) }
{
    tail(text, at) && tail(text, at + 1)
}

// 3( UTF8-tail )
fn three_tails(text: &[u8], at: usize) -> bool
    ensures { result ≡ matches (utf8_tail ∷ utf8_tail ∷ utf8_tail ∷ []) (drop at text.now) }
{
    tail(text, at) && two_tails(text, at + 1)
}

// How many bytes the character at `at` has, if one stands there. The cases are the rows of RFC 3629, section 4, in its order.
#[tactic(auto, using(crate::proofs::Arms::row_one, crate::proofs::Arms::row_two))]
fn character(text: &[u8], at: usize) -> Option<usize>
    requires { at < length text.now }
    ensures { result ≡ found (size (drop at text.now)) }
{
    match text[at] {
        // UTF8-1 = %x00-7F
        0x00..=0x7F => Some(1),
        // UTF8-2 = %xC2-DF UTF8-tail
        0xC2..=0xDF => tail(text, at + 1).then_some(2),
        // UTF8-3 = %xE0 %xA0-BF UTF8-tail /
        0xE0 => (has(text, at + 1, 0xA0, 0xBF) && tail(text, at + 2)).then_some(3),
        //          %xE1-EC 2( UTF8-tail ) /
        0xE1..=0xEC => two_tails(text, at + 1).then_some(3),
        //          %xED %x80-9F UTF8-tail /
        0xED => (has(text, at + 1, 0x80, 0x9F) && tail(text, at + 2)).then_some(3),
        //          %xEE-EF 2( UTF8-tail )
        0xEE..=0xEF => two_tails(text, at + 1).then_some(3),
        // UTF8-4 = %xF0 %x90-BF 2( UTF8-tail ) /
        0xF0 => (has(text, at + 1, 0x90, 0xBF) && two_tails(text, at + 2)).then_some(4),
        //          %xF1-F3 3( UTF8-tail ) /
        0xF1..=0xF3 => three_tails(text, at + 1).then_some(4),
        //          %xF4 %x80-8F 2( UTF8-tail )
        0xF4 => (has(text, at + 1, 0x80, 0x8F) && two_tails(text, at + 2)).then_some(4),
        _ => None,
    }
}

// Past the characters from `at` on, to the first that begins at `end` or later, or to where none stands.
// No `for` here: the place goes on by the length of what stands there.
fn characters(text: &[u8], at: usize, end: usize) -> usize
    requires end_in_bounds { end ≤ length text.now }
    requires at_in_bounds { at ≤ length text.now }
    ensures { Passed text.now at end result }
{
    let mut i = at;
    while i < end {
        let Some(n) = character(text, i) else {
            return i;
        };
        i += n;
    }
    i
}

// A byte that is at least each of the next 64: their bits together.
fn gathered(text: &[u8], at: usize) -> u8
    requires { at + 64 ≤ length text.now }
    ensures { Under text.now at 64 result }
{
    let mut all: u8 = 0;
    for b in &text[at..at + 64] {
        all |= *b;
    }
    all
}

// Are the next 64 bytes below 0x80, and so a character each?
fn all_ascii(text: &[u8], at: usize) -> bool
    requires { at + 64 ≤ length text.now }
    ensures { result ≡ true → whole_length (drop at text.now) ≡ 64 + whole_length (drop (at + 64) text.now) }
{
    gathered(text, at) < 0x80
}

// Past the next 64 bytes: at once if each is below 0x80, else character by character.
fn block(text: &[u8], at: usize) -> usize
    requires { at + 64 ≤ length text.now }
    ensures { Passed text.now at (at + 64) result }
{
    if all_ascii(text, at) {
        return at + 64;
    }
    characters(text, at, at + 64)
}

// How many bytes of the text are whole characters, up to the first that is not. The rows are written out here, and `str::from_utf8` is not asked:
// the must-fail edits of the rows need them. A character can end past a block, so no `chunks` of the text are the blocks.
pub fn whole(text: &[u8]) -> usize
    ensures { result ≡ whole_length text.now }
{
    let mut at = 0;
    while text.len() - at >= 64 {
        let next = block(text, at);
        if next < at + 64 {
            return next;
        }
        at = next;
    }
    characters(text, at, text.len())
}
