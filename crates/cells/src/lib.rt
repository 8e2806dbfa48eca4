// Cells of lent memory: copy a slice in at a place, clear a run, and read and write numbers.
#![tactic(auto)]

ghost use Rattle.std.specs.Prelude.{◌≡◌, ◌+◌, ◌≤◌, ◌<◌, length, get_or, set};
ghost use Rattle.cells.specs.Cells.{pasted, cleared, two, three, two_at, three_at, Number, Writable};

// Copies all of `src` into `dst` from index `at`.
pub fn put(dst: &mut [u8], at: usize, src: &[u8])
    requires { at + length src.now ≤ length dst.old }
    ensures { dst.new ≡ pasted dst.old at src.now }
{
    for (j, x) in src.iter().enumerate() {
        dst[at + j] = *x;
    }
}

// Sets the `n` cells of `dst` from index `at` to 0.
pub fn clear(dst: &mut [u8], at: usize, n: usize)
    requires { at + n ≤ length dst.old }
    ensures { dst.new ≡ cleared dst.old at n }
{
    dst[at..at + n].fill(0);
}

// The number in the two cells from `at` on.
// Two sizes are used, and the numbers of both have a byte order of std; by a const parameter each would be a loop over bytes.
pub fn two_at(cells: &[u8], at: usize) -> usize
    requires { at + 2 ≤ length cells.now }
    ensures { Number (two_at at cells.now) 65536 result }
{
    usize::from(u16::from_le_bytes([cells[at], cells[1 + at]]))
}

// The number in the three cells from `at` on.
pub fn three_at(cells: &[u8], at: usize) -> usize
    requires { at + 3 ≤ length cells.now }
    ensures { Number (three_at at cells.now) 16777216 result }
{
    u32::from_le_bytes([cells[at], cells[1 + at], cells[2 + at], 0]) as usize
}

// Writes `n` into the two cells from `at` on.
pub fn put_two(dst: &mut [u8], at: usize, n: usize)
    requires { Writable at 2 (length dst.old) n 65536 }
    ensures { dst.new ≡ pasted dst.old at (two n) }
{
    put(dst, at, &(n as u16).to_le_bytes());
}

// Writes `n` into the three cells from `at` on.
pub fn put_three(dst: &mut [u8], at: usize, n: usize)
    requires { Writable at 3 (length dst.old) n 16777216 }
    ensures { dst.new ≡ pasted dst.old at (three n) }
{
    put(dst, at, &(n as u32).to_le_bytes()[..3]);
}

// The number in cell `k` of 32 bits.
pub fn read(cells: &[u32], k: usize) -> usize
    requires { k < length cells.now }
    ensures { Number (get_or cells.now k 0) 4294967296 result }
{
    cells[k] as usize
}

// Writes `n` into cell `k` of 32 bits.
pub fn write(cells: &mut [u32], k: usize, n: usize)
    requires { Writable k 1 (length cells.old) n 4294967296 }
    ensures { cells.new ≡ set cells.old k n }
{
    cells[k] = n as u32;
}

// Of `language`, passed on to the crates above.
pub mod from_language {
    pub use layout::from_language::Machine;
}

// Of `layout`, passed on to the crates above.
pub mod from_layout {
    pub use layout::StatePlaces;
}
