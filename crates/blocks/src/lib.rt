// Cells of 32 bits written in blocks: zeros, four numbers, and a number with characters behind it, four to a cell.
#![tactic(auto)]

ghost use Rattle.std.specs.Prelude.{◌≡◌, [], ◌∷◌, ◌+◌, ◌≤◌, ◌<◌, length, drop};
ghost use Rattle.cells.specs.Cells.{pasted, cleared, Number, Writable};
ghost use Rattle.cells.specs.Below.LayoutCells.{cell, four, fours};
ghost use Rattle.blocks.specs.Blocks.{FourNumbers};

// Byte `k` of `word`, and 0 past its end.
fn byte_at(word: &[u8], k: usize) -> usize
    ensures { Number (cell word.now k) 256 result }
{
    word.get(k).map_or(0, |b| usize::from(*b))
}

// The four bytes of `word` from `k` on, as a cell holds them.
// Unlike `packed::cell_of`, which reads four bytes at once, it goes past the end of `word`.
fn four_at(word: &[u8], k: usize) -> usize
    requires { k < 65536 }
    ensures { Number (four (drop k word.now)) 4294967296 result }
{
    let low = byte_at(word, k) + 256 * byte_at(word, k + 1);
    let high = byte_at(word, k + 2) + 256 * byte_at(word, k + 3);
    low + 65536 * high
}

// Writes the first 60 characters of `word` into the 15 cells from `at` on.
fn put_chars(table: &mut [u32], at: usize, word: &[u8])
    requires { at + 15 ≤ length table.old }
    ensures { table.new ≡ pasted table.old at (fours 15 word.now) }
{
    for q in 0..15 {
        cells::write(table, at + q, four_at(word, 4 * q));
    }
}

// Writes `head` into cell `at`, and the first 60 characters of `word` behind it.
pub fn put_named(table: &mut [u32], at: usize, head: usize, word: &[u8])
    requires { Writable at 16 (length table.old) head 4294967296 }
    ensures { table.new ≡ pasted table.old at (head ∷ fours 15 word.now) }
{
    cells::write(table, at, head);
    put_chars(table, at + 1, word);
}

// Writes four numbers from cell `at` on.
pub fn put_four(table: &mut [u32], at: usize, a: usize, b: usize, c: usize, d: usize)
    requires { FourNumbers at (length table.old) a b c d }
    ensures { table.new ≡ pasted table.old at (a ∷ b ∷ c ∷ d ∷ []) }
{
    table[at..at + 4].copy_from_slice(&[a as u32, b as u32, c as u32, d as u32]);
}

// Sets the first `n` cells to 0.
// Its one caller, `writing::clear_table`, was tried with `fill` in its place: what that promises of 8,192 cells was not proved.
pub fn clear_cells(table: &mut [u32], n: usize)
    requires { n ≤ length table.old }
    ensures { table.new ≡ cleared table.old 0 n }
{
    table[..n].fill(0);
}

// Of `cells`, passed on to the crates above.
pub mod from_cells {
    pub use cells::{read, write};
}

// Of `language`, passed on to the crates above.
pub mod from_language {
    pub use cells::from_language::Machine;
}
