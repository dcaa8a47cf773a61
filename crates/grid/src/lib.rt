// A set of pairs of numbers, as bits: a row of 128 bytes for each first number, and in it a bit for each second one, which is below 1,024.
#![tactic(auto)]

ghost use Rattle.std.specs.Prelude.{◌+◌, ◌*◌, ◌^◌, ◌<◌, ◌≤◌, ◌≡◌, length};
ghost use Rattle.grid.specs.Grid.{holds, Puts};

// Is the pair in the set?
pub fn has(grid: &[u8], row: usize, column: usize) -> bool
    requires { (column < 1024) × (row * 128 + 128 ≤ length grid.now) }
    ensures { result ≡ holds grid.now row column }
{
    (grid[row * 128 + column / 8] >> (column % 8)) % 2 == 1
}

// Puts the pair into the set.
pub fn put(grid: &mut [u8], row: usize, column: usize)
    requires { (column < 1024) × (row * 128 + 128 ≤ length grid.old) }
    ensures { Puts grid.old grid.new row column }
{
    grid[row * 128 + column / 8] |= 1 << (column % 8);
}
