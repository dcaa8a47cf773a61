// The line that the lister prints for a text.
#![tactic(auto)]

ghost use Rattle.std.specs.Prelude.{◌≡◌, ◌++◌, length, drop};
ghost use Rattle.io.specs.Counts.{IsPrefixLen};
ghost use Rattle.sheets.specs.Laid.{answer, laid, refused};
ghost use Rattle.laying.specs.Laying.{answered};
ghost use Rattle.writer.specs.Writes.{Writes};
ghost use Rattle.listing.specs.Line.{line_of};
ghost use Rattle.listing.specs.Says.{Spells, Phrases, Lists};

use laying::Laid;
use refusals::Refusal;

// Writes bytes from a cursor on, as the functions of `writer` do.
fn put(bytes: &[u8], out: &mut [u8], at: usize) -> usize
    ensures { Writes bytes.now out.old out.new at result }
{
    let end = writer::skip(at, bytes.len());
    if end <= out.len() {
        out[at..end].copy_from_slice(bytes);
    }
    end
}

// Writes a number in decimal digits.
fn number(n: u64, out: &mut [u8], at: usize) -> usize
    ensures { Spells n out.old out.new at result }
{
    let mut digits = [0u8; 20];
    let k = io::decimal(n, &mut digits);
    put(&digits[..k], out, at)
}

// Writes some words and a number.
fn phrase(words: &[u8], n: u64, out: &mut [u8], at: usize) -> usize
    ensures { Phrases words.now n out.old out.new at result }
{
    let next = put(words, out, at);
    number(n, out, next)
}

// The line of a text that is laid.
fn laid_line(size: usize, objects: usize, out: &mut [u8; 80]) -> usize
    ensures { Lists (line_of (laid size objects)) out.old out.new result }
{
    let room: &mut [u8] = out;
    let middle = phrase(b"laid ", size as u64, room, 0);
    let last = phrase(b" bytes, objects ", objects as u64, room, middle);
    put(b"\n", room, last)
}

// The line of a text that is refused.
fn refused_line(rule: u32, place: usize, end: usize, out: &mut [u8; 80]) -> usize
    ensures { Lists (line_of (refused rule place end)) out.old out.new result }
{
    let room: &mut [u8] = out;
    let first = phrase(b"refused ", rule as u64, room, 0);
    let middle = phrase(b" at ", place as u64, room, first);
    let last = phrase(b" to ", end as u64, room, middle);
    put(b"\n", room, last)
}

// The line of an answer.
fn line(answer: Result<Laid, Refusal>, out: &mut [u8; 80]) -> usize
    ensures { Lists (line_of (answered answer)) out.old out.new result }
{
    match answer {
        Ok(laid) => laid_line(laid.length, laid.objects, out),
        Err(refusal) => refused_line(u32::from(refusal.rule), refusal.place, refusal.end, out),
    }
}

// Lays a text in a sheet of 65,536 bytes, puts the line that says what became of it at the start of out, and answers the line's length.
// The bytes after the line are as they were. No `write!` makes the line: `fmt` promises its bytes only where it answers Ok, and the clauses
// `value` and `out_after` hold for every text.
pub fn list(text: &[u8], out: &mut [u8; 80]) -> usize
    ensures value { result ≡ length (line_of (answer text.now 65536)) }
    ensures out_after { out.new ≡ line_of (answer text.now 65536) ++ drop result out.old }
    ensures prefix_len { IsPrefixLen result out.new }
{
    let mut sheet = [0u8; 65536];
    line(laying::lay(text, &mut sheet), out)
}
