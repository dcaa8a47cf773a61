// Reads a text on standard input, lays it in a sheet of 65,536 bytes and prints one line, as `laid 78 bytes, objects 0` or `refused 8 at 0 to 2`.
// The library `listing` has all of it but the calls of the system. Where reading or writing fails, standard error says why, no line is printed,
// and the status is 1.
#![tactic(auto)]

ghost use Rattle.std.specs.Prelude.{IfOk};
ghost use Rattle.io.specs.Counts.{IsPrefixLen};

use anyhow::{Result, anyhow};
use std::io::{Read, Write};

// Reads until the room is full or the input ends, and answers how many bytes were read. No method of std does so without a `Vec`: `read_exact`
// fails where the input ends before the room.
fn read(from: &mut impl Read, room: &mut [u8]) -> std::io::Result<usize>
    ensures { IfOk result (λ size. IsPrefixLen size room.new) }
{
    let mut done = 0;
    while done < room.len() {
        match from.read(&mut room[done..])? {
            0 => break,
            more => done += more,
        }
    }
    Ok(done)
}

// Prints the line of a text.
fn print(rt: &impl Print, text: &[u8]) -> std::io::Result<()> {
    let mut line = [0u8; 80];
    let n = listing::list(text, &mut line);
    std::io::writer(rt).write_all(&line[..n])
}

// A text of 65,536 bytes is too long already, so that no more has to be read.
fn main(rt: HostRuntime) -> Result<()> {
    let mut room = [0u8; 65536];
    let input = read(&mut rt.stdin(), &mut room);
    let n = input.map_err(|error| anyhow!("lister: standard input: {error}"))?;
    print(&rt, &room[..n]).map_err(|error| anyhow!("lister: standard output: {error}"))
}
