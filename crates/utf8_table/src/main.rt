// Texts at the limits of each row of RFC 3629, section 4, and others, with how many bytes of each are whole characters. The program
// writes a line for each: its bytes, the number found and the number expected, which stands beside the text here.
#![tactic(auto)]

use std::io;

// A text, and how many of its bytes are whole characters.
type Case = (&'static [u8], usize);

// The limits of each row, and each passed by one.
const LIMITS: &[Case] = &[
    // Row 0, UTF8-1 = %x00-7F
    (b"\x00", 1),
    (b"\x7F", 1),
    (b"\x80", 0),
    // Row 1, UTF8-2 = %xC2-DF UTF8-tail
    (b"\xC2\x80", 2),
    (b"\xDF\xBF", 2),
    (b"\xC1\x80", 0),
    (b"\xE0\xBF", 0),
    (b"\xC2\x7F", 0),
    (b"\xDF\xC0", 0),
    // Row 2, %xE0 %xA0-BF UTF8-tail of UTF8-3
    (b"\xE0\xA0\x80", 3),
    (b"\xE0\xBF\xBF", 3),
    (b"\xDF\xA0\x80", 2),
    (b"\xE1\xBF\xBF", 3),
    (b"\xE0\x9F\x80", 0),
    (b"\xE0\xC0\xBF", 0),
    (b"\xE0\xA0\x7F", 0),
    (b"\xE0\xBF\xC0", 0),
    // Row 3, %xE1-EC 2( UTF8-tail ) of UTF8-3
    (b"\xE1\x80\x80", 3),
    (b"\xEC\xBF\xBF", 3),
    (b"\xE0\x80\x80", 0),
    (b"\xED\xBF\xBF", 0),
    (b"\xE1\x7F\x80", 0),
    (b"\xEC\xC0\xBF", 0),
    (b"\xE1\x80\x7F", 0),
    (b"\xEC\xBF\xC0", 0),
    // Row 4, %xED %x80-9F UTF8-tail of UTF8-3
    (b"\xED\x80\x80", 3),
    (b"\xED\x9F\xBF", 3),
    (b"\xEC\x80\x80", 3),
    (b"\xEE\x9F\xBF", 3),
    (b"\xED\x7F\x80", 0),
    (b"\xED\xA0\xBF", 0),
    (b"\xED\x80\x7F", 0),
    (b"\xED\x9F\xC0", 0),
    // Row 5, %xEE-EF 2( UTF8-tail ) of UTF8-3
    (b"\xEE\x80\x80", 3),
    (b"\xEF\xBF\xBF", 3),
    (b"\xED\x80\x80", 3),
    (b"\xF0\xBF\xBF", 0),
    (b"\xEE\x7F\x80", 0),
    (b"\xEF\xC0\xBF", 0),
    (b"\xEE\x80\x7F", 0),
    (b"\xEF\xBF\xC0", 0),
    // Row 6, %xF0 %x90-BF 2( UTF8-tail ) of UTF8-4
    (b"\xF0\x90\x80\x80", 4),
    (b"\xF0\xBF\xBF\xBF", 4),
    (b"\xEF\x90\x80\x80", 3),
    (b"\xF1\xBF\xBF\xBF", 4),
    (b"\xF0\x8F\x80\x80", 0),
    (b"\xF0\xC0\xBF\xBF", 0),
    (b"\xF0\x90\x7F\x80", 0),
    (b"\xF0\xBF\xC0\xBF", 0),
    (b"\xF0\x90\x80\x7F", 0),
    (b"\xF0\xBF\xBF\xC0", 0),
    // Row 7, %xF1-F3 3( UTF8-tail ) of UTF8-4
    (b"\xF1\x80\x80\x80", 4),
    (b"\xF3\xBF\xBF\xBF", 4),
    (b"\xF0\x80\x80\x80", 0),
    (b"\xF4\xBF\xBF\xBF", 0),
    (b"\xF1\x7F\x80\x80", 0),
    (b"\xF3\xC0\xBF\xBF", 0),
    (b"\xF1\x80\x7F\x80", 0),
    (b"\xF3\xBF\xC0\xBF", 0),
    (b"\xF1\x80\x80\x7F", 0),
    (b"\xF3\xBF\xBF\xC0", 0),
    // Row 8, %xF4 %x80-8F 2( UTF8-tail ) of UTF8-4
    (b"\xF4\x80\x80\x80", 4),
    (b"\xF4\x8F\xBF\xBF", 4),
    (b"\xF3\x80\x80\x80", 4),
    (b"\xF5\x8F\xBF\xBF", 0),
    (b"\xF4\x7F\x80\x80", 0),
    (b"\xF4\x90\xBF\xBF", 0),
    (b"\xF4\x80\x7F\x80", 0),
    (b"\xF4\x8F\xC0\xBF", 0),
    (b"\xF4\x80\x80\x7F", 0),
    (b"\xF4\x8F\xBF\xC0", 0),
];

// The first character of each row from row 1 on, among others and cut short.
const CUT_SHORT: &[Case] = &[
    // Row 1
    (b"a\xC2\x80z", 4),
    (b"\xC2", 0),
    (b"a\xC2z", 1),
    // Row 2
    (b"a\xE0\xA0\x80z", 5),
    (b"\xE0\xA0", 0),
    (b"a\xE0\xA0z", 1),
    (b"\xE0", 0),
    (b"a\xE0z", 1),
    // Row 3
    (b"a\xE1\x80\x80z", 5),
    (b"\xE1\x80", 0),
    (b"a\xE1\x80z", 1),
    (b"\xE1", 0),
    (b"a\xE1z", 1),
    // Row 4
    (b"a\xED\x80\x80z", 5),
    (b"\xED\x80", 0),
    (b"a\xED\x80z", 1),
    (b"\xED", 0),
    (b"a\xEDz", 1),
    // Row 5
    (b"a\xEE\x80\x80z", 5),
    (b"\xEE\x80", 0),
    (b"a\xEE\x80z", 1),
    (b"\xEE", 0),
    (b"a\xEEz", 1),
    // Row 6
    (b"a\xF0\x90\x80\x80z", 6),
    (b"\xF0\x90\x80", 0),
    (b"a\xF0\x90\x80z", 1),
    (b"\xF0\x90", 0),
    (b"a\xF0\x90z", 1),
    (b"\xF0", 0),
    (b"a\xF0z", 1),
    // Row 7
    (b"a\xF1\x80\x80\x80z", 6),
    (b"\xF1\x80\x80", 0),
    (b"a\xF1\x80\x80z", 1),
    (b"\xF1\x80", 0),
    (b"a\xF1\x80z", 1),
    (b"\xF1", 0),
    (b"a\xF1z", 1),
    // Row 8
    (b"a\xF4\x80\x80\x80z", 6),
    (b"\xF4\x80\x80", 0),
    (b"a\xF4\x80\x80z", 1),
    (b"\xF4\x80", 0),
    (b"a\xF4\x80z", 1),
    (b"\xF4", 0),
    (b"a\xF4z", 1),
];

// Bytes that are no character.
const NO_CHARACTERS: &[Case] = &[
    // The first and the last number of one byte in two bytes, the last of two in three, the last of three in four.
    (b"\xC0\x80", 0),
    (b"a\xC0\x80z", 1),
    (b"\xC1\xBF", 0),
    (b"a\xC1\xBFz", 1),
    (b"\xE0\x9F\xBF", 0),
    (b"a\xE0\x9F\xBFz", 1),
    (b"\xF0\x8F\xBF\xBF", 0),
    (b"a\xF0\x8F\xBF\xBFz", 1),
    // The first and the last surrogate.
    (b"\xED\xA0\x80", 0),
    (b"a\xED\xA0\x80z", 1),
    (b"\xED\xBF\xBF", 0),
    (b"a\xED\xBF\xBFz", 1),
    // One past the last character.
    (b"\xF4\x90\x80\x80", 0),
    (b"a\xF4\x90\x80\x80z", 1),
    // Bytes that begin no character: 80, BF, C0 and C1.
    (b"\x80", 0),
    (b"\x80\x80\x80\x80", 0),
    (b"\xBF", 0),
    (b"\xBF\x80\x80\x80", 0),
    (b"\xC0", 0),
    (b"\xC0\x80\x80\x80", 0),
    (b"\xC1", 0),
    (b"\xC1\x80\x80\x80", 0),
    // F5 to F9 begin none.
    (b"\xF5", 0),
    (b"\xF5\x80\x80\x80", 0),
    (b"\xF6", 0),
    (b"\xF6\x80\x80\x80", 0),
    (b"\xF7", 0),
    (b"\xF7\x80\x80\x80", 0),
    (b"\xF8", 0),
    (b"\xF8\x80\x80\x80", 0),
    (b"\xF9", 0),
    (b"\xF9\x80\x80\x80", 0),
    // FA to FF begin none.
    (b"\xFA", 0),
    (b"\xFA\x80\x80\x80", 0),
    (b"\xFB", 0),
    (b"\xFB\x80\x80\x80", 0),
    (b"\xFC", 0),
    (b"\xFC\x80\x80\x80", 0),
    (b"\xFD", 0),
    (b"\xFD\x80\x80\x80", 0),
    (b"\xFE", 0),
    (b"\xFE\x80\x80\x80", 0),
    (b"\xFF", 0),
    (b"\xFF\x80\x80\x80", 0),
];

// Longer texts, most of them of about 64 bytes.
const LONG: &[Case] = &[
    // Runs of ASCII of about 64 bytes.
    (b"", 0),
    (b"abcdefg", 7),
    (
        b"abcdefghabcdefghabcdefghabcdefghabcdefghabcdefghabcdefghabcdefg",
        63,
    ),
    (
        b"abcdefghabcdefghabcdefghabcdefghabcdefghabcdefghabcdefghabcdefgh",
        64,
    ),
    (
        b"abcdefghabcdefghabcdefghabcdefghabcdefghabcdefghabcdefghabcdefgha",
        65,
    ),
    // A character of two, three and four bytes across the end of the first 64 bytes.
    (
        b"abcdefghabcdefghabcdefghabcdefghabcdefghabcdefghabcdefghabcdefg\xC2\x80",
        65,
    ),
    (
        b"abcdefghabcdefghabcdefghabcdefghabcdefghabcdefghabcdefghabcdef\xE2\x82\xAC",
        65,
    ),
    (
        b"abcdefghabcdefghabcdefghabcdefghabcdefghabcdefghabcdefghabcde\xF0\x90\x80\x80",
        65,
    ),
    (
        b"abcdefghabcdefghabcdefghabcdefghabcdefghabcdefghabcdefghabcdefg\xF0\x90\x80\x80abcdefghabcdefghabcdefghabcdefghabcdefghabcdefghabcdefghabcde",
        128,
    ),
    // A byte that is no character before, within, at the end of and after the first 64.
    (
        b"\xFFabcdefghabcdefghabcdefghabcdefghabcdefghabcdefghabcdefghabcdefgh",
        0,
    ),
    (
        b"abcdefghabcdefghabcdefghabcdefg\xFFabcdefghabcdefghabcdefghabcdefghabcdefgh",
        31,
    ),
    (
        b"abcdefghabcdefghabcdefghabcdefghabcdefghabcdefghabcdefghabcdefg\xFFab",
        63,
    ),
    (
        b"abcdefghabcdefghabcdefghabcdefghabcdefghabcdefghabcdefghabcdefgh\xFF",
        64,
    ),
    (
        b"abcdefghabcdefghabcdefghabcdefghabcdefghabcdefghabcdefghabcdefg\xC2",
        63,
    ),
    (
        b"abcdefghabcdefghabcdefghabcdefghabcdefghabcdefghabcdefghabcdefg\xE2\x82",
        63,
    ),
    // One character after another.
    (b"\xF4\x8F\xBF\xBF\xF4\x8F\xBF\xBF", 8),
    (b"\xF4\x8F\xBF\xBF\xED\xA0\x80", 4),
    (b"\xC2\x80\xC2\x80\xC2\x80\xC2\x80\xC1\xBF", 8),
    (
        b"abcdefghabcdefghabcdefghabcdefghabcdefgh\xE2\x82\xAC\xE2\x82\xAC\xE2\x82\xAC\xE2\x82\xAC\xE2\x82\xAC\xE2\x82\xAC\xE2\x82\xAC\xE2\x82\xAC\xE2\x82\xAC",
        67,
    ),
    (
        b"abcdefghabcdefghabcdefghabcdefghabcdefgh\xC2\x80\xC2\x80\xC2\x80\xC2\x80\xC2\x80\xC2\x80\xC2\x80\xC2\x80\xC2\x80\xC2\x80\xC2\x80\xC2\x80\xC1",
        64,
    ),
];

// Writes the line of a text: each byte in hexadecimal, and the two numbers.
fn show(rt: &impl Print, text: &[u8], expected: usize) -> io::Result<()> {
    for byte in text {
        print!(rt; "{byte:02x} ")?;
    }
    let found = utf8::whole(text);
    println!(rt; "found {found} expected {expected}")
}

// Writes the lines of a table.
fn show_all(rt: &impl Print, cases: &[Case]) -> io::Result<()> {
    for (text, expected) in cases {
        show(rt, text, *expected)?;
    }
    Ok(())
}

// Writes the limits of the rows. Each table has a function of its own: with all texts in one function, the check took three times as long.
fn limits(rt: &impl Print) -> io::Result<()> {
    show_all(rt, LIMITS)
}

// Writes what is cut short.
fn cut_short(rt: &impl Print) -> io::Result<()> {
    show_all(rt, CUT_SHORT)
}

// Writes what is no character.
fn no_characters(rt: &impl Print) -> io::Result<()> {
    show_all(rt, NO_CHARACTERS)
}

// Writes the longer texts.
fn long(rt: &impl Print) -> io::Result<()> {
    show_all(rt, LONG)
}

fn main(rt: HostRuntime) -> io::Result<()> {
    limits(&rt)?;
    cut_short(&rt)?;
    no_characters(&rt)?;
    long(&rt)
}
