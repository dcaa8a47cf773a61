// The sample readings (docs/TRACE.md) in the order of the paper's table, then `{"a":1,"a":2}`, `{}` and the kiosk: the line that the lister
// prints for each.
#![tactic(auto)]

use std::io::{self, Write};

// The texts, in that order.
const SAMPLES: &[&[u8]] = &[
    // Not JSON, and not UTF-8.
    b"",
    b"tru",
    b"01",
    b"\xFF",
    // As deep as is allowed, and one level deeper.
    &[b'['; 32],
    &[b'['; 33],
    // Strings and names.
    b"\"\\uD800\"",
    b"{\"type\":1,\"type\":1}",
    b"{\"\\u0061\":1,\"a\":2}",
    // Kinds and members.
    b"{\"type\":1}",
    b"[]",
    b" {}",
    // 32 arrays, one in the other.
    b"[[[[[[[[[[[[[[[[[[[[[[[[[[[[[[[[]]]]]]]]]]]]]]]]]]]]]]]]]]]]]]]]",
    // The minimal CityJSON object.
    b"{\"type\":\"CityJSON\",\"version\":\"2.0\",\"transform\":{\"scale\":[1.0,1.0,1.0],\"translate\":[0.0,0.0,0.0]},\"CityObjects\":{},\"vertices\":[]}",
    // A name twice, and no member.
    b"{\"a\":1,\"a\":2}",
    b"{}",
    // One CityFurniture with a MultiPoint over one vertex.
    b"{\"type\":\"CityJSON\",\"version\":\"2.0\",\"transform\":{\"scale\":[1.0,1.0,1.0],\"translate\":[0.0,0.0,0.0]},\
      \"CityObjects\":{\"kiosk\":{\"type\":\"CityFurniture\",\"geometry\":[{\"type\":\"MultiPoint\",\"lod\":\"1\",\"boundaries\":[0]}]}},\
      \"vertices\":[[7,-1,256]]}",
];

// Prints the line of a text.
fn show(rt: &impl Print, text: &[u8]) -> io::Result<()> {
    let mut line = [0u8; 80];
    let n = listing::list(text, &mut line);
    io::writer(rt).write_all(&line[..n])
}

fn main(rt: HostRuntime) -> io::Result<()> {
    for text in SAMPLES {
        show(&rt, text)?;
    }
    Ok(())
}
