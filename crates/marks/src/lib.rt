// Sets of pairs of objects' numbers, filled from a flat table of rows and asked by a row.
// In a table, word k says where the row of the object of number k begins, word k + 1 where it ends.
#![tactic(auto)]

ghost use Rattle.std.specs.Prelude.{◌+◌, ◌*◌, ◌<◌, ◌≤◌, ◌≡◌, length, get_or};
ghost use Rattle.marks.specs.Marks.{row_of};
ghost use Rattle.marks.specs.Marks as marks;
ghost use Rattle.marks.specs.Says.{Whole, MarkGives, RowGives, RowAt, Table, AllGive};

// The word j of a table or of a row.
pub fn word(rows: &[u16], j: usize) -> usize
    requires { j < length rows.now }
    ensures { (result ≡ get_or rows.now j 0) × (result < 65536) }
{
    usize::from(rows[j])
}

// The row k of a table.
pub fn row(rows: &[u16], k: usize) -> &[u16]
    requires { RowAt rows.now k }
    ensures { result.now ≡ row_of rows.now k }
{
    &rows[word(rows, k)..word(rows, k + 1)]
}

// Puts the number of a listed object into a row of the set. Is it the number of an object, and was it not there?
pub fn mark(set: &mut [u8], row: usize, number: usize, count: usize) -> bool
    requires { (row * 128 + 128 ≤ length set.old) × (count ≤ 1024) }
    ensures { MarkGives set.old set.new row number count result }
{
    if number >= count || grid::has(set, row, number) {
        return false;
    }
    grid::put(set, row, number);
    true
}

// Puts the numbers of a row of the table into a row of the set. Is it so for each of them?
fn mark_row(set: &mut [u8], row: usize, numbers: &[u16], count: usize) -> bool
    requires { (row * 128 + 128 ≤ length set.old) × (count ≤ 1024) }
    ensures { RowGives set.old set.new row numbers.now count result }
{
    let mut good = true;
    for number in numbers {
        good &= mark(set, row, usize::from(*number), count);
    }
    good
}

// Puts the numbers of all rows of the table into the set. Is it so for each of them?
pub fn mark_all(set: &mut [u8], rows: &[u16], count: usize) -> bool
    requires { (count * 128 ≤ length set.old) × (count ≤ 1024) × (Table rows.now count) }
    ensures { AllGive rows.now set.old set.new count result }
{
    let mut good = true;
    for k in 0..count {
        good &= mark_row(set, k, row(rows, k), count);
    }
    good
}

// Has the set, which has a row for each object, the pair (other, own)?
pub fn answers(set: &[u8], own: usize, other: usize) -> bool
    requires { (own < 1024) × (other < 65536) × (Whole set.now) }
    ensures { result ≡ marks.answers set.now own other }
{
    other * 128 < set.len() && grid::has(set, other, own)
}

// Has it the pair (n, own) for each number n of a row?
pub fn answered(set: &[u8], own: usize, numbers: &[u16]) -> bool
    requires { (own < 1024) × (Whole set.now) }
    ensures { result ≡ marks.answered set.now own numbers.now }
{
    numbers
        .iter()
        .all(|number| answers(set, own, usize::from(*number)))
}
