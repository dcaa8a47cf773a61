// Rule 5, which holds in every part of a text, over the nodes of its table, and the chain of a text.
// Each function that looks for faults takes the least so far and gives the least.
#![tactic(auto)]

ghost use Rattle.std.specs.Prelude.{◌+◌, ◌*◌, ◌%◌, ◌<◌, map, ◌≡◌};
ghost use Rattle.nodes.specs.Faults.{fault, least};
ghost use Rattle.nodes.specs.Says.{Root, Gives};
ghost use Rattle.everywhere.specs.Everywhere.{rule5};
ghost use Rattle.everywhere.specs.Says.{AnyPart, PartGives, own5};
ghost use Rattle.everywhere.specs.Chains.{hash_from, chain_of};
ghost use Rattle.strings.specs.Spans.{Span, decode_at};
ghost use Rattle.strings.specs.Ahead.{ahead};

use strings::Decoder;

// Rule 5 at a node, if a string or a name stands there: an unpaired surrogate escape, at its backslash.
fn unpaired_at(text: &[u8], table: &[u32], i: usize, best: u32) -> u32
    requires { AnyPart text.now table.now i }
    ensures { PartGives 5 own5 text.now table.now i best result }
{
    let from = nodes::start(table, i);
    if text[from] != b'"' {
        return best;
    }
    let to = nodes::end(table, i);
    match strings::first_unpaired(text, from + 1, to - 1) {
        Some(p) => nodes::lesser(best, nodes::fault_at(5, p)),
        None => best,
    }
}

// Rule 5 in the tree whose table has n words. A text with no backslash has no escape.
pub fn unpaired(text: &[u8], table: &[u32], n: usize, best: u32) -> u32
    requires { Root text.now table.now n }
    ensures { Gives (λ v. least best (map (fault 5) (rule5 v))) text.now table.now 0 result }
{
    if !strings::has_escape(text) {
        return best;
    }
    let mut least = best;
    for k in (0..n).step_by(3) {
        least = unpaired_at(text, table, k, least);
    }
    least
}

// The number of some bytes, with one byte more.
fn mixed(h: u32, b: u8) -> u32
    requires { h < 67108864 }
    ensures { (result ≡ (h * 59 + b) % 67108864) × (result < 67108864) }
{
    (h * 59 + u32::from(b)) % 67108864
}

// The number of the bytes that the decoder has ahead, where those before have the number `seed`.
#[inline(never)]
fn hash_ahead(rest: Decoder, seed: u32) -> u32
    requires { seed < 67108864 }
    ensures { result ≡ hash_from seed (ahead rest.entry) }
{
    let mut h = seed;
    for b in rest {
        h = mixed(h, b);
    }
    h
}

// The number of the bytes that a string stands for. Byte by byte up to a backslash, and from there on decoded: a loop over a decoder alone is slower
// (counted at `strings::decoded_length`, it takes 14 instructions a byte in place of 8).
fn hash(text: &[u8], at: usize, end: usize) -> u32
    requires { Span text.now at end }
    ensures { result ≡ hash_from 0 (decode_at text.now at end) }
{
    let mut h = 0;
    for i in at..end {
        let b = text[i];
        let escape = b == b'\\';
        if escape {
            return hash_ahead(Decoder::new(text, i, end), h);
        }
        h = mixed(h, b);
    }
    h
}

// The chain that a string goes to, of 4,096.
pub fn chain_of(text: &[u8], at: usize, end: usize) -> usize
    requires { Span text.now at end }
    ensures { (result ≡ chain_of (decode_at text.now at end)) × (result < 4096) }
{
    let h = hash(text, at, end);
    (h % 4096) as usize
}
