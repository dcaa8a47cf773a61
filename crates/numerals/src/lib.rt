// JSON numerals (RFC 8259, section 6) by their value: integers, and pairs (m, e) that mean m times ten to the e.
// A numeral is given by the text and two offsets, `at` of its first byte and `end` past its last.
#![tactic(auto)]

ghost use Rattle.std.specs.Prelude.{◌+◌, ◌-◌, ◌*◌, ◌^◌, ◌≤◌, ◌<◌, min, true, cond, Some, None, ◌≡◌, length};
ghost use Rattle.std.proofs.Math.Seq.{slice};
ghost use Rattle.std.proofs.Math.IntN.{sub_ℕ};
ghost use Rattle.utf8.specs.Ascii.{is_digit};
ghost use Rattle.numerals.specs.Numerals as spec;
ghost use Rattle.numerals.specs.Reading.{pair_in, saturated, IsWhole, within, quick_of, Quick, Short, taken, capped, Room, Reads, Reaches, power_of};

// No mantissa of a pair is this large.
const LARGE: u64 = 1_000_000_000_000_000;

// The powers of ten of pairs lie from -22 to 22.
const REACH: u128 = 22;

// An integer by its sign and its magnitude, which stops at 2^64 - 1.
#[derive(Drop)]
pub struct Whole {
    pub negative: bool,
    pub magnitude: u64,
}

// The digits of a mantissa that were read: m and the zeros that follow it, how many stand after the point, and whether the point was read.
#[derive(Drop)]
struct Sum {
    pub m: u64,
    pub zeros: u64,
    pub places: u64,
    pub point: bool,
}

// The value of a digit; none for another byte.
fn digit(b: u8) -> Option<u64>
    ensures { result ≡ cond (is_digit b) (Some (b - 48)) None }
{
    if b.is_ascii_digit() {
        Some(u64::from(b - b'0'))
    } else {
        None
    }
}

// Is it the letter before an exponent?
fn is_letter(b: u8) -> bool
    ensures { result ≡ spec.is_letter b }
{
    matches!(b, b'e' | b'E')
}

// Has the numeral no fraction and no exponent?
pub fn is_integer(text: &[u8], at: usize, end: usize) -> bool
    requires { (at ≤ end) × (end ≤ length text.now) }
    ensures { result ≡ spec.is_integer (slice at end text.now) }
{
    let raw = &text[at..end];
    raw.iter().all(|b| *b != b'.' && !is_letter(*b))
}

// Does a minus sign come first?
fn is_negative(raw: &[u8]) -> bool
    ensures { result ≡ spec.negative raw.now }
{
    matches!(raw, [b'-', ..])
}

// The number that the digits write, at most 2^64 - 1. What comes after that is not read.
fn magnitude(raw: &[u8]) -> u64
    ensures { result ≡ saturated raw.now }
{
    let mut n: u64 = 0;
    for b in raw {
        let full = n == u64::MAX;
        if full {
            return n;
        }
        if let Some(d) = digit(*b) {
            n = n.saturating_mul(10).saturating_add(d);
        }
    }
    n
}

// The value of an integer.
fn integer_of(raw: &[u8]) -> Whole
    ensures { IsWhole raw.now result }
{
    Whole {
        negative: is_negative(raw),
        magnitude: magnitude(raw),
    }
}

// The same by the numeral's offsets.
pub fn integer(text: &[u8], at: usize, end: usize) -> Whole
    requires { (at ≤ end) × (end ≤ length text.now) }
    ensures { IsWhole (slice at end text.now) result }
{
    integer_of(&text[at..end])
}

// Does an integer lie from -low to high - 1?
fn lies(w: Whole, low: u64, high: u64) -> bool
    ensures { result ≡ within low high (spec.signed w.negative w.magnitude) }
{
    let n = w.magnitude;
    let under = w.negative && n > 0;
    if under {
        return n <= low;
    }
    n < high
}

// Does an integer lie within 32 signed bits?
pub fn fits_32(text: &[u8], at: usize, end: usize) -> bool
    requires { (at ≤ end) × (end ≤ length text.now) }
    ensures { result ≡ spec.fits32 (spec.integer (slice at end text.now)) }
{
    lies(integer(text, at, end), 0x8000_0000, 0x8000_0000)
}

// Is an integer one of 0, 1, .., count - 1?
pub fn is_below(text: &[u8], at: usize, end: usize, count: usize) -> bool
    requires { (at ≤ end) × (end ≤ length text.now) }
    ensures { result ≡ spec.is_below count (spec.integer (slice at end text.now)) }
{
    lies(integer(text, at, end), 0, count as u64)
}

// The number that the digits write, if there are only digits.
fn digits(raw: &[u8]) -> Option<u64>
    requires { length raw.now < 10 }
    ensures { result ≡ quick_of raw.now }
{
    let mut n: u64 = 0;
    for b in raw {
        n = n * 10 + digit(*b)?;
    }
    Some(n)
}

// The number that at most nine digits write; none for other bytes.
pub fn quick(text: &[u8], at: usize, end: usize) -> Option<u64>
    requires { (at ≤ end) × (end ≤ length text.now) }
    ensures { Quick (slice at end text.now) result }
{
    let few = end - at <= 9;
    if !few {
        return None;
    }
    digits(&text[at..end])
}

// Is it a numeral of at most nine bytes with no fraction and no exponent? Then it is an integer that lies within 32 signed bits.
pub fn is_short(text: &[u8], at: usize, end: usize) -> bool
    requires { (at ≤ end) × (end ≤ length text.now) }
    ensures { Short (slice at end text.now) result }
{
    let raw = &text[at..end];
    if raw.len() > 9 {
        return false;
    }
    match raw {
        [] => false,
        [b'-', rest @ ..] => digits(rest).is_some(),
        _ => digits(raw).is_some(),
    }
}

// A number with a sign.
fn with_sign(negative: bool, n: u64) -> i64
    requires { n < 2 ^ 63 }
    ensures { result ≡ spec.signed negative n }
{
    if negative { -(n as i64) } else { n as i64 }
}

// An integer that lies within 32 signed bits.
pub fn small(text: &[u8], at: usize, end: usize) -> i64
    requires at_le_end { (at ≤ end) × (end ≤ length text.now) }
    requires text_value { spec.fits32 (spec.integer (slice at end text.now)) ≡ true }
    ensures { result ≡ spec.integer (slice at end text.now) }
{
    let w = integer(text, at, end);
    with_sign(w.negative, w.magnitude)
}

// m, then some zeros, then a digit; or 10^15 if that is less.
fn append(m: u64, zeros: u64, d: u64) -> u64
    requires { (m < 10 ^ 15) × (zeros < 2 ^ 63) × (d < 10) }
    ensures { result ≡ min (m * 10 ^ (zeros + 1) + d) (10 ^ 15) }
{
    let mut n = m;
    for _ in 0..zeros + 1 {
        if n >= LARGE {
            return LARGE;
        }
        n *= 10;
    }
    LARGE.min(n + d)
}

// One more byte of a mantissa.
fn take(s: Sum, b: u8) -> Sum
    requires { Room s }
    ensures { result ≡ capped (taken s b) }
{
    if b == b'.' {
        return Sum { point: true, ..s };
    }
    let places = s.places + u64::from(s.point);
    match digit(b) {
        None => s,
        Some(0) => Sum {
            zeros: s.zeros + 1,
            places,
            ..s
        },
        Some(d) => Sum {
            m: append(s.m, s.zeros, d),
            zeros: 0,
            places,
            ..s
        },
    }
}

// The digits before the exponent, and where it starts; none if m is 10^15 or more.
fn read(raw: &[u8]) -> Option<(Sum, usize)>
    ensures { Reads raw.now result }
{
    let mut s = Sum {
        m: 0,
        zeros: 0,
        places: 0,
        point: false,
    };
    for (i, b) in raw.iter().enumerate() {
        if is_letter(*b) {
            return Some((s, i + 1));
        }
        s = take(s, *b);
        if s.m >= LARGE {
            return None;
        }
    }
    Some((s, raw.len()))
}

// The difference a - b, if it is within 22 of 0.
fn gap(a: u128, b: u128) -> Option<i64>
    ensures { Reaches (sub_ℕ a b) result }
{
    let size = a.abs_diff(b);
    let beyond = size > REACH;
    if beyond {
        return None;
    }
    Some(with_sign(a < b, size as u64))
}

// The power of ten of a pair, if it is within 22 of 0: the zeros that were dropped, the exponent, less the places after the point.
fn ten_power(zeros: u64, places: u64, exponent: Whole) -> Option<i64>
    ensures { Reaches (power_of zeros places exponent.negative exponent.magnitude) result }
{
    let up = u128::from(zeros);
    let down = u128::from(places);
    let n = u128::from(exponent.magnitude);
    if exponent.negative {
        gap(up, down + n)
    } else {
        gap(up + n, down)
    }
}

// The pair of a numeral: its value as m times ten to the e, where m is no multiple of ten, or both are 0. None if it lies out of range.
pub fn pair(text: &[u8], at: usize, end: usize) -> Option<(i64, i64)>
    requires { (at ≤ end) × (end ≤ length text.now) }
    ensures { pair_in result ≡ spec.pair_of (slice at end text.now) }
{
    let raw = &text[at..end];
    let (s, next) = read(raw)?;
    if s.m == 0 {
        return Some((0, 0));
    }
    let e = ten_power(s.zeros, s.places, integer_of(&raw[next..]))?;
    Some((with_sign(is_negative(raw), s.m), e))
}
