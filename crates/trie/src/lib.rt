// A trie of texts in a flat array. An entry has five words: three slots, then the byte that leads to it, and a value of the caller's.
// A slot holds an entry, or 0: the first slot the root of the tree of its children, the others those to its left and right in the tree that it is in.
// Entry 0 is that of the empty text. The array has at most 327,680 words, 65,536 entries.
// The array and the count are no type of their own: `clear`, `value` and `put` ask less of the array than `walk`, and a type would ask all of them.
#![tactic(auto)]

ghost use Rattle.std.specs.Prelude.{◌+◌, ◌*◌, ◌%◌, ◌≤◌, ◌<◌, ◌≡◌, [], ◌∷◌, length};
ghost use Rattle.strings.specs.Spans.{Span, decode_at};
ghost use Rattle.strings.specs.Ahead.{ahead};
ghost use Rattle.trie.specs.Trie.{value_of, Sought, Grown, Walks, Emptied, Puts};

use strings::Decoder;

// An entry, and the count of the entries.
#[derive(Clone, Copy)]
pub struct Place {
    pub entry: usize,
    pub count: usize,
}

// The slot that holds the child of the entry s by the byte b, or 0 if there is none; nothing if the search was given up.
// The children of an entry are a digital tree: to the left or to the right of one by the next bit of the byte, from the lowest.
fn slot_of(trie: &[u16], s: usize, c: usize, b: u8) -> Option<usize>
    requires { (s < c) × (c * 5 ≤ length trie.now) }
    ensures { Sought trie.now c b s result }
{
    let mut q = s * 5;
    let mut bits = usize::from(b);
    for _ in 0..9 {
        let e = usize::from(trie[q]);
        if e >= c {
            return None;
        }
        if e == 0 || trie[e * 5 + 3] == u16::from(b) {
            return Some(q);
        }
        q = e * 5 + 1 + bits % 2;
        bits /= 2;
    }
    None
}

// Appends the entry c, to which the byte b leads, and puts it into the slot w.
fn grow(trie: &mut [u16], w: usize, c: usize, b: u8)
    requires { (w < c * 5) × (w % 5 < 3) × (c * 5 + 5 ≤ length trie.old) × (length trie.old ≤ 327680) }
    ensures { Grown trie.old trie.new w c b }
{
    trie[c * 5..c * 5 + 5].fill(0);
    trie[c * 5 + 3] = u16::from(b);
    trie[w] = c as u16;
}

// From an entry by one byte, to an entry that is appended if there is none.
fn step(trie: &mut [u16], from: Place, b: u8) -> Option<Place>
    requires { (from.entry < from.count) × (from.count * 5 ≤ length trie.old) × (length trie.old ≤ 327680) }
    ensures { Walks trie.old from.count from.entry (b ∷ []) trie.new result }
{
    let count = from.count;
    let slot = slot_of(trie, from.entry, count, b)?;
    let entry = usize::from(trie[slot]);
    if entry != 0 {
        return Some(Place { entry, count });
    }
    if count * 5 + 5 > trie.len() {
        return None;
    }
    grow(trie, slot, count, b);
    Some(Place {
        entry: count,
        count: count + 1,
    })
}

// From an entry by the bytes that the decoder has ahead.
fn walk_ahead(rest: Decoder, trie: &mut [u16], begin: Place) -> Option<Place>
    requires { (begin.entry < begin.count) × (begin.count * 5 ≤ length trie.old) × (length trie.old ≤ 327680) }
    ensures { Walks trie.old begin.count begin.entry (ahead rest.entry) trie.new result }
{
    let mut p = begin;
    for b in rest {
        p = step(trie, p, b)?;
    }
    Some(p)
}

// From the root by the bytes that a string stands for. The way is given up where there is no room.
pub fn walk(text: &[u8], at: usize, end: usize, trie: &mut [u16], count: usize) -> Option<Place>
    requires { (Span text.now at end) × (0 < count) × (count * 5 ≤ length trie.old) × (length trie.old ≤ 327680) }
    ensures { Walks trie.old count 0 (decode_at text.now at end) trie.new result }
{
    let mut p = Place { entry: 0, count };
    for i in at..end {
        let b = text[i];
        if b == b'\\' {
            return walk_ahead(Decoder::new(text, i, end), trie, p);
        }
        p = step(trie, p, b)?;
    }
    Some(p)
}

// Leaves the root alone, with no value.
pub fn clear(trie: &mut [u16])
    requires { 5 ≤ length trie.old }
    ensures { Emptied trie.old trie.new }
{
    trie[0] = 0;
    trie[4] = 0;
}

// The value of an entry.
pub fn value(trie: &[u16], entry: usize) -> usize
    requires { entry * 5 + 5 ≤ length trie.now }
    ensures { (result ≡ value_of trie.now entry) × (result < 65536) }
{
    usize::from(trie[entry * 5 + 4])
}

// Gives an entry a value.
pub fn put(trie: &mut [u16], entry: usize, value: usize)
    requires { (entry * 5 + 5 ≤ length trie.old) × (value < 65536) }
    ensures { Puts trie.old trie.new entry value }
{
    trie[entry * 5 + 4] = value as u16;
}
