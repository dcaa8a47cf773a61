// Rule 6, which holds in every object of a text, over the nodes of its table.
// Each function that looks for faults takes the least so far and gives the least, or nothing if its way is given up.
#![tactic(auto)]

ghost use Rattle.std.specs.Prelude.{◌*◌, ◌≤◌, ◌<◌, map, ◌≡◌, length};
ghost use Rattle.utf8.specs.Utf8.{same};
ghost use Rattle.trie.specs.Trie.{Walks};
ghost use Rattle.nodes.specs.Faults.{fault, least};
ghost use Rattle.nodes.specs.Says.{Root, Gives};
ghost use Rattle.everywhere.specs.Everywhere.{rule6};
ghost use Rattle.everywhere.specs.Says.{AnyPart, text_at};
ghost use Rattle.repeats.specs.Names.{PartTells, TreeTells, own6, NameText, NameNode, Repeats, RepeatGives};
ghost use Rattle.repeats.specs.Chains.{ChainNode, Searched, ChainAt, ChainGives, LongObject};
ghost use Rattle.repeats.specs.Entries.{TrieRoom, ValueTells, EntryFault, EntryAt, EntryGives, TrieObject, FreshObject};

// The least fault so far, and the count of the entries of a trie.
#[derive(Clone, Copy)]
struct Turn {
    least: u32,
    count: usize,
}

// Do the names at two nodes stand for the same text?
#[inline(always)]
fn same_names(text: &[u8], table: &[u32], i: usize, j: usize) -> bool
    requires { (NameText text.now table.now i) × (NameText text.now table.now j) }
    ensures { result ≡ same (text_at text.now table.now i) (text_at text.now table.now j) }
{
    let from = nodes::start(table, i) + 1;
    let to = nodes::end(table, i) - 1;
    let from2 = nodes::start(table, j) + 1;
    let to2 = nodes::end(table, j) - 1;
    !compare::apart(text, from, to, from2, to2) && compare::same_string(text, from, to, from2, to2)
}

// Does the name at node k repeat one of those from the node `first` on that stand before it?
fn repeats(text: &[u8], table: &[u32], first: usize, k: usize) -> bool
    requires { NameNode text.now table.now first k }
    ensures { Repeats text.now table.now first k result }
{
    let before = nodes::Siblings {
        table,
        at: first,
        end: k,
        lead: 3,
    };
    for j in before {
        if same_names(text, table, j, k) {
            return true;
        }
    }
    false
}

// Rule 6 at the name at node k: it repeats an earlier one, at the later name.
fn repeat_at(text: &[u8], table: &[u32], first: usize, k: usize, best: u32) -> u32
    requires { NameNode text.now table.now first k }
    ensures { RepeatGives text.now table.now first k best result }
{
    if !repeats(text, table, first, k) {
        return best;
    }
    let place = nodes::start(table, k);
    nodes::lesser(best, nodes::fault_at(6, place))
}

// Does the name at node k repeat one of the chain that begins with the name at node `head`? The first 16 are compared,
// and nothing is told of a chain with more. A link is the node of the name before in the chain, or 0, the root's, which is no name's.
fn in_chain(text: &[u8], table: &[u32], links: &[u32], head: usize, k: usize) -> Option<bool>
    requires { ChainNode text.now table.now links.now head k }
    ensures { Searched text.now table.now links.now head k result }
{
    let mut e = head;
    for _ in 0..16 {
        if e == 0 {
            return Some(false);
        }
        if same_names(text, table, e, k) {
            return Some(true);
        }
        e = links[e / 3] as usize;
    }
    if e == 0 { Some(false) } else { None }
}

// Rule 6 at the name at node k, which is then the head of its chain. Nothing is told if that is too long.
fn chain_at(
    text: &[u8],
    table: &[u32],
    links: &mut [u32],
    heads: &mut [u32; 4096],
    k: usize,
    best: u32,
) -> Option<u32>
    requires { ChainAt text.now table.now links.old heads.old k }
    ensures { ChainGives text.now table.now links.old heads.old
        links.new heads.new k best result }
{
    let from = nodes::start(table, k);
    let to = nodes::end(table, k);
    let c = everywhere::chain_of(text, from + 1, to - 1);
    let head = heads[c];
    links[k / 3] = head;
    heads[c] = k as u32;
    if !in_chain(text, table, links, head as usize, k)? {
        return Some(best);
    }
    Some(nodes::lesser(best, nodes::fault_at(6, from)))
}

// Rule 6 in the object at node i, by chains of its names: a name is compared with those of its own chain alone.
// Nothing is told if a chain is too long. Out of line: inlined, its many values put the place of the loop over all nodes on the stack.
#[inline(never)]
fn chained_in(text: &[u8], table: &[u32], links: &mut [u32], i: usize, best: u32) -> Option<u32>
    requires { LongObject text.now table.now links.old i }
    ensures { PartTells 1 6 own6 text.now table.now i best result }
{
    let mut heads: [u32; 4096] = [0; 4096];
    let mut least = best;
    for k in nodes::names(text, table, i) {
        least = chain_at(text, table, links, &mut heads, k, least)?;
    }
    Some(least)
}

// Rule 6 at a node, if an object stands there: among its names. The first 16 are compared with all before them;
// if there are more, all names go into chains, if there is a link for each node. Nothing is told if a chain is too long.
fn repeated_in(text: &[u8], table: &[u32], links: &mut [u32], i: usize, best: u32) -> Option<u32>
    requires { (AnyPart text.now table.now i) × (length links.old ≤ 32784) }
    ensures { PartTells (length links.old) 6 own6 text.now table.now i best result }
{
    if text[nodes::start(table, i)] != b'{' {
        return Some(best);
    }
    let n = nodes::next(table, i);
    let first = i + 3;
    let mut least = best;
    for (seen, k) in nodes::names(text, table, i).enumerate() {
        if seen == 16 && n <= links.len() * 3 {
            return chained_in(text, table, links, i, best);
        }
        least = repeat_at(text, table, first, k, least);
    }
    Some(least)
}

// The entry of the name at node k in a trie, if there is room for it.
fn entry_of(
    text: &[u8],
    table: &[u32],
    trie: &mut [u16],
    count: usize,
    k: usize,
) -> Option<trie::Place>
    requires { (NameText text.now table.now k) × (0 < count) × (count * 5 ≤ length trie.old) × (length trie.old ≤ 327680) }
    ensures { Walks trie.old count 0 (text_at text.now table.now k) trie.new result }
{
    let from = nodes::start(table, k);
    let to = nodes::end(table, k);
    trie::walk(text, from + 1, to - 1, trie, count)
}

// Rule 6 at the name at node k. Its entry, whose value was v, or 0 before any name, has been given a third of k as its value.
// Nothing is told if v is that of another text.
fn entry_fault(text: &[u8], table: &[u32], v: usize, k: usize, best: u32) -> Option<u32>
    requires { (NameText text.now table.now k) × (ValueTells text.now table.now v) × (v < 65536) × (length text.now ≤ 65535) }
    ensures { EntryFault text.now table.now v k best result }
{
    if v == 0 {
        return Some(best);
    }
    if !same_names(text, table, v * 3, k) {
        return None;
    }
    let from = nodes::start(table, k);
    Some(nodes::lesser(best, nodes::fault_at(6, from)))
}

// Rule 6 at the name at node k, where names before it have entries of a trie, whose values are a third of their nodes.
fn entry_at(text: &[u8], table: &[u32], trie: &mut [u16], k: usize, turn: Turn) -> Option<Turn>
    requires { EntryAt text.now table.now trie.old turn.count k }
    ensures { EntryGives text.now table.now trie.old turn.count trie.new k turn.least result }
{
    let third = k / 3;
    if third >= 65536 || third * 3 != k {
        return None;
    }
    let p = entry_of(text, table, trie, turn.count, k)?;
    let v = trie::value(trie, p.entry);
    trie::put(trie, p.entry, third);
    let least = entry_fault(text, table, v, k, turn.least)?;
    Some(Turn {
        least,
        count: p.count,
    })
}

// Rule 6 in the object at node i, by a trie of its names, which has none yet. Nothing is told if the trie has no room.
fn entered_names(text: &[u8], table: &[u32], trie: &mut [u16], i: usize, best: u32) -> Option<u32>
    requires { FreshObject text.now table.now trie.old i }
    ensures { PartTells 1 6 own6 text.now table.now i best result }
{
    let mut turn = Turn {
        least: best,
        count: 1,
    };
    for k in nodes::names(text, table, i) {
        turn = entry_at(text, table, trie, k, turn)?;
    }
    Some(turn.least)
}

// The same, whatever the trie had before.
fn entered_object(text: &[u8], table: &[u32], trie: &mut [u16], i: usize, best: u32) -> Option<u32>
    requires { TrieObject text.now table.now trie.old i }
    ensures { PartTells 1 6 own6 text.now table.now i best result }
{
    trie::clear(trie);
    entered_names(text, table, trie, i, best)
}

// The same at a node, if an object stands there.
fn entered_in(text: &[u8], table: &[u32], trie: &mut [u16], i: usize, best: u32) -> Option<u32>
    requires { (AnyPart text.now table.now i) × (TrieRoom trie.old) }
    ensures { PartTells 1 6 own6 text.now table.now i best result }
{
    if text[nodes::start(table, i)] != b'{' {
        return Some(best);
    }
    entered_object(text, table, trie, i, best)
}

// Rule 6 in the tree whose table has n words, by tries: the time grows with the bytes of the names, whatever they are.
// Nothing is told if a trie has no room.
fn entered(text: &[u8], table: &[u32], trie: &mut [u16], n: usize, best: u32) -> Option<u32>
    requires { (Root text.now table.now n) × (TrieRoom trie.old) }
    ensures { TreeTells 1 text.now table.now best result }
{
    let mut least = best;
    for k in (0..n).step_by(3) {
        least = entered_in(text, table, trie, k, least)?;
    }
    Some(least)
}

// The same with room for N words, five for each entry, in a trie.
fn entered_sized<const N: usize>(text: &[u8], table: &[u32], n: usize, best: u32) -> Option<u32>
    requires { (Root text.now table.now n) × (5 ≤ N) × (N ≤ 327680) }
    ensures { TreeTells 1 text.now table.now best result }
{
    let mut space: [u16; N] = [0; N];
    entered(text, table, &mut space, n, best)
}

// The same with room that suits the text: the names of an object have fewer bytes than it. Few entries are cleared sooner.
fn entered_long(text: &[u8], table: &[u32], n: usize, best: u32) -> Option<u32>
    requires { Root text.now table.now n }
    ensures { TreeTells 1 text.now table.now best result }
{
    if text.len() <= 4096 {
        return entered_sized::<20480>(text, table, n, best);
    }
    entered_sized::<327680>(text, table, n, best)
}

// Rule 6 in the tree whose table has n words, with links for the names. Nothing is told if a chain is too long,
// which no chain is without links.
fn pass(text: &[u8], table: &[u32], links: &mut [u32], n: usize, best: u32) -> Option<u32>
    requires { (Root text.now table.now n) × (length links.old ≤ 32784) }
    ensures { TreeTells (length links.old) text.now table.now best result }
{
    let mut least = best;
    let mut k = 0;
    // Tried, and it is slower: `step_by` compares twice in each turn, 15 instructions for a node that is no object.
    while k < n {
        least = repeated_in(text, table, links, k, least)?;
        k += 3;
    }
    Some(least)
}

// The same where a chain is too long: by tries, and by comparing all names if there is no room for these.
#[inline(never)]
fn again(text: &[u8], table: &[u32], n: usize, best: u32) -> u32
    requires { Root text.now table.now n }
    ensures { Gives (λ v. least best (map (fault 6) (rule6 v))) text.now table.now 0 result }
{
    if let Some(r) = entered_long(text, table, n, best) {
        return r;
    }
    pass(text, table, &mut [], n, best).unwrap()
}

// Rule 6 in the tree whose table has n words, with N links: one for each node, if n is at most three times N. Few links are cleared sooner.
fn repeated_sized<const N: usize>(text: &[u8], table: &[u32], n: usize, best: u32) -> u32
    requires { (Root text.now table.now n) × (N ≤ 32784) }
    ensures { Gives (λ v. least best (map (fault 6) (rule6 v))) text.now table.now 0 result }
{
    let mut space: [u32; N] = [0; N];
    match pass(text, table, &mut space, n, best) {
        Some(r) => r,
        None => again(text, table, n, best),
    }
}

// The same with links of a number that suits the tree, whose table has at most 98,352 words.
fn repeated_long(text: &[u8], table: &[u32], n: usize, best: u32) -> u32
    requires { Root text.now table.now n }
    ensures { Gives (λ v. least best (map (fault 6) (rule6 v))) text.now table.now 0 result }
{
    if n <= 6195 {
        return repeated_sized::<2065>(text, table, n, best);
    }
    if n <= 49152 {
        return repeated_sized::<16384>(text, table, n, best);
    }
    repeated_sized::<32784>(text, table, n, best)
}

// The same of a short text: by few links, and by small tries where a chain is too long. These have room for all its names,
// but the long way is a function with a frame of its own because it is called from here too.
fn repeated_short(text: &[u8], table: &[u32], n: usize, best: u32) -> u32
    requires { Root text.now table.now n }
    ensures { Gives (λ v. least best (map (fault 6) (rule6 v))) text.now table.now 0 result }
{
    let mut space: [u32; 2065] = [0; 2065];
    if let Some(a) = pass(text, table, &mut space, n, best) {
        return a;
    }
    if let Some(b) = entered_sized::<20480>(text, table, n, best) {
        return b;
    }
    repeated_long(text, table, n, best)
}

// Rule 6 in the tree whose table has n words: in any object. The table of a short text has room for at most 6,195.
pub fn repeated(text: &[u8], table: &[u32], n: usize, best: u32) -> u32
    requires { Root text.now table.now n }
    ensures { Gives (λ v. least best (map (fault 6) (rule6 v))) text.now table.now 0 result }
{
    if table.len() <= 6195 {
        return repeated_short(text, table, n, best);
    }
    repeated_long(text, table, n, best)
}
