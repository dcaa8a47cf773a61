// Judges a CityJSON text by the rules of docs/RULES.md.
#![tactic(auto)]

ghost use Rattle.std.specs.Prelude.{◌+◌, ◌*◌, ◌≤◌, ◌≡◌, length};
ghost use Rattle.verdict.specs.Verdict.{parsed, verdict};
ghost use Rattle.json_text.specs.Machine.{read};
ghost use Rattle.examining.specs.Examining.{Stands, RowRoom};
ghost use Rattle.judging.specs.Judging.{verdict_of};

use nodes::NO_FAULT;
use refusals::Refusal;

// Rules 5 to 17 over the node table of a text, whose first n words are its tree's.
#[tactic(auto, unfolding(crate::specs::Judging::verdict_of))]
fn judge_table(
    text: &[u8],
    table: &[u32],
    n: usize,
    children: &mut [u16],
    parents: &mut [u16],
) -> Result<usize, Refusal>
    requires { (Stands text.now table.now n) × (RowRoom text.now table.now children.old) × (RowRoom text.now table.now parents.old) }
    ensures { verdict_of result ≡ parsed (read text.now) }
{
    let walked = examining::examine(text, table, n, children, parents);
    if walked.least < NO_FAULT {
        return Err(examining::refuse(text, table, n, &walked));
    }
    Ok(walked.index.count)
}

// The same with rows of N numbers for the links, which do for a tree of at most 3 N words. Small rows are cleared sooner.
#[inline(never)]
fn judge_rows<const N: usize>(text: &[u8], table: &[u32], n: usize) -> Result<usize, Refusal>
    requires { (Stands text.now table.now n) × (n ≤ 3 * N) × (N ≤ 65535) }
    ensures { verdict_of result ≡ parsed (read text.now) }
{
    let mut children = [0; N];
    let mut parents = [0; N];
    judge_table(text, table, n, &mut children, &mut parents)
}

// The same with rows of a size that suits the tree.
fn judge_tree(text: &[u8], table: &[u32], n: usize) -> Result<usize, Refusal>
    requires { (Stands text.now table.now n) × (length table.now ≤ 98352) }
    ensures { verdict_of result ≡ parsed (read text.now) }
{
    if n <= 6195 {
        return judge_rows::<2065>(text, table, n);
    }
    if n <= 49152 {
        return judge_rows::<16384>(text, table, n);
    }
    judge_rows::<32784>(text, table, n)
}

// Rules 3 to 17 of a text, with a work table of N words, which has room for its tree. A small work table is cleared sooner.
#[inline(never)]
fn judge_text<const N: usize>(text: &[u8]) -> Result<usize, Refusal>
    requires { (length text.now ≤ 65535) × (3 * length text.now + 99 ≤ 2 * N) × (N ≤ 98352) }
    ensures { verdict_of result ≡ parsed (read text.now) }
{
    let mut table = [0; N];
    let n = examining::open(text, &mut table)?;
    judge_tree(text, &table, n)
}

// Judges a text: the number of its city objects, or the lowest broken rule at its earliest place, with its end.
pub fn judge(text: &[u8]) -> Result<usize, Refusal>
    ensures { verdict_of result ≡ verdict text.now }
{
    examining::screen(text)?;
    if text.len() <= 4096 {
        return judge_text::<6194>(text);
    }
    judge_text::<98352>(text)
}
