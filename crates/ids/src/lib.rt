// The IDs of city objects over the node table of a text: which of them a string is.
#![tactic(auto)]

ghost use Rattle.std.specs.Prelude.{ℕ, ◌+◌, ◌<◌, ◌≡◌, length, get_or};
ghost use Rattle.utf8.specs.Utf8 as utf8;
ghost use Rattle.everywhere.specs.Chains.{chain_of};
ghost use Rattle.everywhere.specs.Says.{text_at};
ghost use Rattle.ids.specs.Says.{TextNode, Objects, Puts, Fills, Numbered, Numbers, word_of};

// Do the strings or names at two nodes stand for the same text?
fn same(text: &[u8], table: &[u32], i: usize, j: usize) -> bool
    requires { (TextNode text.now table.now i) × (TextNode text.now table.now j) }
    ensures { result ≡ utf8.same (text_at text.now table.now i) (text_at text.now table.now j) }
{
    let from = nodes::start(table, i);
    let to = nodes::end(table, i);
    let from2 = nodes::start(table, j);
    let to2 = nodes::end(table, j);
    compare::same_string(text, from + 1, to - 1, from2 + 1, to2 - 1)
}

// The chain that the string or name at node i goes to.
fn chain_at(text: &[u8], table: &[u32], i: usize) -> usize
    requires { TextNode text.now table.now i }
    ensures { (result ≡ chain_of (text_at text.now table.now i)) × (result < 4096) }
{
    let from = nodes::start(table, i);
    let to = nodes::end(table, i);
    everywhere::chain_of(text, from + 1, to - 1)
}

// The number of an object by its word in a chain: one less than the word, and none of 0.
fn in_word(word: u16) -> Option<usize>
    ensures { word_of result ≡ word }
{
    usize::from(word).checked_sub(1)
}

// Chains of the IDs of objects. A word is one more than the number of an object, or 0 if there is none: a head has that of the first object of its
// chain, a next one that of the object after it.
// They are read as Options (`in_word`) and stored bare: an `Option<u16>` takes twice the room, and the stack is bounded.
#[derive(Drop)]
pub struct ChainWords {
    pub heads: [u16; 4096],
    pub nexts: [u16; 1024],
}

impl ChainWords {
    // Puts the object of number k, whose name stands at node `own`, at the head of its chain.
    fn put(&mut self, text: &[u8], table: &[u32], own: usize, k: usize)
        requires { (TextNode text.now table.now own) × (k < 1024) }
        ensures { Puts text.now table.now own k self.old.heads self.old.nexts self.new.heads self.new.nexts }
    {
        let c = chain_at(text, table, own);
        self.nexts[k] = self.heads[c];
        self.heads[c] = (k + 1) as u16;
    }

    // Fills the chains of the IDs of the objects, from the last object to the first, so that of equal IDs the first is found first.
    pub fn fill(&mut self, text: &[u8], table: &[u32], offsets: &[usize])
        requires { (Objects text.now table.now offsets.now)
            × (length self.old.heads ≡ 4096) × (length self.old.nexts ≡ 1024) × ((c : ℕ) → get_or self.old.heads c 0 ≡ 0) }
        ensures { Fills text.now table.now offsets.now self.old.nexts self.new.heads self.new.nexts }
    {
        for k in (0..offsets.len()).rev() {
            self.put(text, table, offsets[k], k);
        }
    }
}

// The objects of a text with the chains of their IDs. What is known of them stands in the contracts, as `Numbered`: a ghost field takes only a fact
// with at most one proof, and `Objects` keeps the members themselves.
#[derive(Clone, Copy)]
pub struct Directory<'a> {
    pub text: &'a [u8],
    pub table: &'a [u32],
    pub offsets: &'a [usize],
    pub chains: &'a ChainWords,
}

impl<'a> Directory<'a> {
    // The number, from 0, of the first object whose ID is the string or name at node i, if there is one.
    pub fn number(&self, i: usize) -> Option<usize>
        requires { (Numbered self.now) × (TextNode self.now.text.now self.now.table.now i) }
        ensures { Numbers self.now.text.now self.now.table.now self.now.offsets.now i result }
    {
        let c = chain_at(self.text, self.table, i);
        let mut left = in_word(self.chains.heads[c]);
        while let Some(k) = left {
            let name = self.offsets[k];
            if same(self.text, self.table, name, i) {
                return Some(k);
            }
            left = in_word(self.chains.nexts[k]);
        }
        None
    }
}
