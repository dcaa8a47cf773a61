// Writes numbers and strings to a lent sheet. A place in the sheet is a cursor, which may lie past the sheet's end:
// a number or a string that does not fit is counted and not written.
#![tactic(auto)]

ghost use Rattle.std.specs.Prelude.{◌+◌, ◌^◌, ◌≤◌, ◌<◌, ◌≡◌, length, replicate};
ghost use Rattle.strings.specs.Spans.{Span, decode_at};
ghost use Rattle.utf8.specs.Bytes.{le};
ghost use Rattle.writer.specs.Writes.{Stores, Skips, Closes, GoesOn, Recorded, twos};

// Zeroes the whole sheet.
pub fn clear(sheet: &mut [u8])
    ensures { sheet.new ≡ replicate (length sheet.old) 0 }
{
    sheet.fill(0);
}

// The cursor n further on.
pub fn skip(at: usize, n: usize) -> usize
    ensures { Skips n at result }
{
    at.saturating_add(n)
}

// A number in N bytes.
fn put<const N: usize>(sheet: &mut [u8], at: usize, n: u64) -> usize
    requires { N ≤ 8 }
    ensures { Stores (le N n) sheet.old sheet.new at result }
{
    let end = skip(at, N);
    if end > sheet.len() {
        return end;
    }
    sheet[at..end].copy_from_slice(&n.to_le_bytes()[..N]);
    end
}

// A number in two bytes.
pub fn put2(sheet: &mut [u8], at: usize, n: u64) -> usize
    ensures { Stores (le 2 n) sheet.old sheet.new at result }
{
    put::<2>(sheet, at, n)
}

// A number in four bytes.
pub fn put4(sheet: &mut [u8], at: usize, n: u64) -> usize
    ensures { Stores (le 4 n) sheet.old sheet.new at result }
{
    put::<4>(sheet, at, n)
}

// A number in eight bytes.
pub fn put8(sheet: &mut [u8], at: usize, n: u64) -> usize
    ensures { Stores (le 8 n) sheet.old sheet.new at result }
{
    put::<8>(sheet, at, n)
}

// An integer in 64 bits.
pub fn bits(z: i64) -> u64
    ensures { result ≡ twos z }
{
    z.cast_unsigned()
}

// The bytes that a string of the text stands for.
pub fn string(text: &[u8], from: usize, to: usize, sheet: &mut [u8], at: usize) -> usize
    requires { Span text.now from to }
    ensures { Stores (decode_at text.now from to) sheet.old sheet.new at result }
{
    let n = strings::decoded_length(text, from, to);
    let end = skip(at, n);
    if end > sheet.len() {
        return end;
    }
    strings::copy(text, from, to, sheet, at)
}

// The bytes of a record before its payload.
const HEADER: usize = 6;

// Makes a record of the payload that was written from `body`, six bytes past `at`, to `end`: writes its header.
pub fn close(sheet: &mut [u8], at: usize, body: usize, end: usize, kind: u64)
    requires { (Skips 6 at body) × (body ≤ end) }
    ensures { Closes kind at body end sheet.old sheet.new }
{
    let middle = put4(sheet, at, (end - body) as u64);
    put2(sheet, middle, kind);
}

// A record of that kind: `payload` is handed the cursor at which it is to write, and gives the one after.
pub fn record<F: FnOnce(&mut [u8], usize) -> usize>(
    sheet: &mut [u8],
    at: usize,
    kind: u64,
    payload: F,
) -> usize
    requires callable { F.IsAlwaysCallable payload }
    requires onward { GoesOn F.FnOnce payload }
    ensures { Recorded F.FnOnce payload kind sheet.old sheet.new at result }
{
    let body = skip(at, HEADER);
    let end = payload(sheet, body);
    close(sheet, at, body, end, kind);
    end
}
