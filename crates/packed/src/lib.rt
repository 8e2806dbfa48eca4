// Characters in the cells of a program table: four to a cell, the first in the lowest bits; a name or a text has 15 cells.
#![tactic(auto)]

ghost use Rattle.std.specs.Prelude.{◌≡◌, [], ◌∷◌, ◌++◌, ◌+◌, ◌-◌, ◌*◌, ◌≤◌, ◌<◌, min, length, take, drop};
ghost use Rattle.cells.specs.Below.LayoutCells.{four, unfours};
ghost use Rattle.cells.specs.Below.Lists.{bytes_equal};
ghost use Rattle.packed.specs.Packed.{row_chars, Rest, RestRoom, Copied};

use cells::from_language::Machine;

// The four bytes of `word` from `k` on, as a cell holds them.
pub fn cell_of(word: &[u8], k: usize) -> u32
    requires { k + 4 ≤ length word.now }
    ensures { result ≡ four (drop k word.now) }
{
    u32::from_le_bytes([word[k], word[k + 1], word[k + 2], word[k + 3]])
}

// Whether the bytes of `word` from `k` on, fewer than four, are the first in the cell `x`.
fn rest_is(x: u32, word: &[u8], k: usize) -> bool
    requires { Rest k (length word.now) }
    ensures { result ≡ bytes_equal (take (length word.now - k) (unfours (x ∷ []))) (drop k word.now) }
{
    x.to_le_bytes()[..word.len() - k] == word[k..]
}

// Writes the four bytes of the cell `x` from index `k` on.
fn put_four(out: &mut [u8], k: usize, x: u32)
    requires { k + 4 ≤ length out.old }
    ensures { out.new ≡ take k out.old ++ (unfours (x ∷ []) ++ drop (k + 4) out.old) }
{
    cells::put(out, k, &x.to_le_bytes());
}

// Writes the first `n` bytes of the cell `x`, fewer than four, from index `k` on.
fn put_rest(out: &mut [u8], k: usize, n: usize, x: u32)
    requires { RestRoom k n (length out.old) }
    ensures { out.new ≡ take k out.old ++ (take n (unfours (x ∷ [])) ++ drop (k + n) out.old) }
{
    cells::put(out, k, &x.to_le_bytes()[..n]);
}

// Whether the characters of `word` behind its first `q` fours, fewer than four, are the first in cell `q` of a row.
fn end_is(row: &[u32; 15], q: usize, word: &[u8]) -> bool
    requires { (length word.now ≤ 60) × Rest (4 * q) (length word.now) }
    ensures { result ≡ bytes_equal (take (length word.now - 4 * q) (unfours (drop q row.now))) (drop (4 * q) word.now) }
{
    if 4 * q == word.len() {
        return true;
    }
    rest_is(row[q], word, 4 * q)
}

// Whether the first characters in a row of cells, as many as `word` has, are those of `word`: from the last ones on, in which most words differ.
// A loop: `(0..fours).rev().all(..)` leaves open what a range yields from its end on, of which std has no lemma.
fn chars_are(row: &[u32; 15], word: &[u8]) -> bool
    requires { length word.now ≤ 60 }
    ensures { result ≡ bytes_equal (row_chars row.now (length word.now)) word.now }
{
    let fours = word.len() / 4;
    if !end_is(row, fours, word) {
        return false;
    }
    for q in (0..fours).rev() {
        if row[q] != cell_of(word, 4 * q) {
            return false;
        }
    }
    true
}

// Whether the first `n` characters in a row of cells are `word`.
pub fn spells(row: &[u32; 15], n: usize, word: &[u8]) -> bool
    ensures { result ≡ bytes_equal (row_chars row.now n) word.now }
{
    if n.min(Machine::ITEM) != word.len() {
        return false;
    }
    chars_are(row, word)
}

// Copies the first `n` characters in a row of cells to the front of `out`, and tells how many there are.
pub fn put_chars(row: &[u32; 15], n: usize, out: &mut [u8]) -> usize
    requires { 60 ≤ length out.old }
    ensures { Copied (row_chars row.now n) out.old out.new result }
{
    let m = n.min(Machine::ITEM);
    let fours = m / 4;
    for q in 0..fours {
        put_four(out, 4 * q, row[q]);
    }
    if 4 * fours < m {
        put_rest(out, 4 * fours, m - 4 * fours, row[fours]);
    }
    m
}

// Of `cells`, passed on to the crates above.
pub mod from_cells {
    pub use cells::read;
}

// Of `language`, passed on to the crates above.
pub mod from_language {
    pub use cells::from_language::Machine;
}
