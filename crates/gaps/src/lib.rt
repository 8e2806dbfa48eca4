// Ninety-nine strings in a pool with gaps between them: where each lies, how one is laid in, and how room is made.
// The ends are one array, start and end of each string in turn, so that their order is one law over one list.
// Pool, ends and scratch stay arguments of their own: the clauses speak of their cells, and of a struct would name the fields in each place.
#![tactic(auto)]

ghost use Rattle.std.specs.Prelude.{◌≡◌, ◌+◌, length};
ghost use Rattle.cells.specs.Below.Strings.{used};
ghost use Rattle.gaps.specs.Pool.{str, abs, Fine, Holds};
ghost use Rattle.gaps.specs.Gaps.{GapStart, GapEnd, Edge, Roomy, pushed_front, pushed_back, Lies, Layable, LaidOne, Carriable, Carried, Extra, Settleable, Settled, Spreadable, Wanted, Made};
ghost use Rattle.cells.specs.Below.LayoutPlaces.{strings_count};

use cells::from_layout::StatePlaces;

// How many bytes the pool has, and how far apart strings are laid.
pub const SIZE: usize = 65536;

pub const APART: usize = 320;

// Where the gap before string `i` starts.
// The pool's own ends stand in no cell: the first gap and the last are told by a test of the index, here and in `gap_end`.
fn gap_start(ends: &[u32], i: usize) -> usize
    requires { Edge ends.now i }
    ensures { GapStart ends.now i result }
{
    if i == 0 {
        return 0;
    }
    cells::read(ends, 2 * i - 1)
}

// Where the gap before string `i` ends.
fn gap_end(ends: &[u32], i: usize) -> usize
    requires { Edge ends.now i }
    ensures { GapEnd ends.now i result }
{
    if i == StatePlaces::STRINGS_COUNT {
        return SIZE;
    }
    cells::read(ends, 2 * i)
}

// Puts `bytes` before string `i`, where the gap before it has room. With `put_back` in one, an end and a match would be longer than both.
pub fn put_front(pool: &mut [u8], ends: &mut [u32], i: usize, bytes: &[u8])
    requires { Roomy pool.old ends.old i i (length bytes.now) }
    ensures { Holds pool.new ends.new (pushed_front i bytes.now (abs pool.old ends.old)) }
{
    let to = cells::read(ends, 2 * i);
    let at = to - bytes.len();
    cells::put(pool, at, bytes);
    cells::write(ends, 2 * i, at);
}

// Puts `bytes` behind string `i`, where the gap behind it has room.
pub fn put_back(pool: &mut [u8], ends: &mut [u32], i: usize, bytes: &[u8])
    requires { Roomy pool.old ends.old i (i + 1) (length bytes.now) }
    ensures { Holds pool.new ends.new (pushed_back i bytes.now (abs pool.old ends.old)) }
{
    let at = cells::read(ends, 2 * i + 1);
    cells::put(pool, at, bytes);
    cells::write(ends, 2 * i + 1, at + bytes.len());
}

// Lays `bytes` into the pool from `at` on, as string `j`.
pub fn lay(pool: &mut [u8], ends: &mut [u32], j: usize, at: usize, bytes: &[u8])
    requires { Layable pool.old ends.old j at (length bytes.now) }
    ensures { LaidOne pool.old ends.old j at bytes.now pool.new ends.new }
{
    let to = at + bytes.len();
    cells::put(pool, at, bytes);
    cells::write(ends, 2 * j, at);
    cells::write(ends, 2 * j + 1, to);
}

// `n` where `j` is `i`, and 0 elsewhere: a function, since in the loop each of three goals would need the two cases again.
// 0 is no mark for "elsewhere": it is the number of bytes that is added there.
fn only_at(j: usize, i: usize, n: usize) -> usize
    ensures { Extra j i n result }
{
    if j == i { n } else { 0 }
}

// The bytes of string `j`.
pub fn string_at<'a>(pool: &'a [u8], ends: &[u32], j: usize) -> &'a [u8]
    requires { Lies pool.now ends.now j }
    ensures { result.now ≡ str pool.now ends.now j }
{
    let a = cells::read(ends, 2 * j);
    let b = cells::read(ends, 2 * j + 1);
    &pool[a..b]
}

// Lays string `j` of `pool` into `scratch` from `at` on, and tells where it ends there.
fn carry(pool: &[u8], ends: &mut [u32], scratch: &mut [u8], j: usize, at: usize) -> usize
    requires { Carriable pool.now ends.old scratch.old j at }
    ensures { Carried pool.now ends.old scratch.old j at result scratch.new ends.new }
{
    let bytes = string_at(pool, ends, j);
    lay(scratch, ends, j, at, bytes);
    at + bytes.len()
}

// Copies each string from where it lies in `scratch` to the same place in `pool`.
fn settle(pool: &mut [u8], ends: &[u32], scratch: &[u8])
    requires { Settleable pool.old ends.now scratch.now }
    ensures { Settled pool.new ends.now scratch.now strings_count }
{
    for j in 0..StatePlaces::STRINGS_COUNT {
        let at = cells::read(ends, 2 * j);
        cells::put(pool, at, string_at(scratch, ends, j));
    }
}

// Lays all strings out anew, with `n` bytes more in the gap before string `i`.
fn relayout(pool: &mut [u8], ends: &mut [u32], scratch: &mut [u8], i: usize, n: usize)
    requires { Spreadable pool.old ends.old i n (length scratch.old) }
    ensures { Made pool.new ends.new (abs pool.old ends.old) i n }
{
    let mut at = 0;
    for j in 0..StatePlaces::STRINGS_COUNT {
        let to = at + APART + only_at(j, i, n);
        at = carry(pool, ends, scratch, j, to);
    }
    settle(pool, ends, scratch);
}

// How many bytes the strings have in all.
fn total_len(pool: &[u8], ends: &[u32]) -> usize
    requires { Fine pool.now ends.now }
    ensures { result ≡ used (abs pool.now ends.now) }
{
    let mut n = 0;
    for j in 0..StatePlaces::STRINGS_COUNT {
        n += string_at(pool, ends, j).len();
    }
    n
}

// Makes room for `n` bytes in the gap before string `i`, which gets all that the strings leave free where they are laid out anew.
pub fn make_room(pool: &mut [u8], ends: &mut [u32], scratch: &mut [u8], i: usize, n: usize)
    requires { Wanted pool.old ends.old i n (length scratch.old) }
    ensures { Made pool.new ends.new (abs pool.old ends.old) i n }
{
    let low = gap_start(ends, i);
    let high = gap_end(ends, i);
    if low + n <= high {
        return;
    }
    let held = total_len(pool, ends);
    relayout(
        pool,
        ends,
        scratch,
        i,
        SIZE - StatePlaces::STRINGS_COUNT * APART - held,
    );
}

// Of `cells`, passed on to the crates above.
pub mod from_cells {
    pub use cells::{put, read, write};
}
