// The working store of 99 strings: readers that lend, edits at both ends of a string, and moves between strings. A string costs what is
// moved of it, whatever the others hold. Pool and ends stay two arguments, as in `gaps`.
#![tactic(auto)]

ghost use Rattle.std.specs.Prelude.{◌≡◌, ◌-◌, length, take, drop};
ghost use Rattle.gaps.specs.Below.Cells.{pasted};
ghost use Rattle.gaps.specs.Pool.{abs, string, Holds};
ghost use Rattle.gaps.specs.Gaps.{pushed_front, pushed_back};
ghost use Rattle.store.specs.Store.{Named, Long, Whole, Within, Part, Copyable, Droppable, dropped_front, dropped_back, Pushable, Movable, moved_front, moved_front_to_back, moved_back_to_front, Exchangeable, exchanged};

// The length of string `i`.
pub fn len_of(pool: &[u8], ends: &[u32], i: usize) -> usize
    requires { Named pool.now ends.now i }
    ensures { Long pool.now ends.now i result }
{
    string_of(pool, ends, i).len()
}

// The bytes of string `i`.
pub fn string_of<'a>(pool: &'a [u8], ends: &[u32], i: usize) -> &'a [u8]
    requires { Named pool.now ends.now i }
    ensures { Whole pool.now ends.now i result.now }
{
    gaps::string_at(pool, ends, i)
}

// The `n` bytes of string `i` from `at` on.
pub fn part_of<'a>(pool: &'a [u8], ends: &[u32], i: usize, at: usize, n: usize) -> &'a [u8]
    requires { Within pool.now ends.now i at n }
    ensures { Part pool.now ends.now i at n result.now }
{
    let bytes = string_of(pool, ends, i);
    &bytes[at..at + n]
}

// Copies the `n` bytes of string `i` from `at` on to the front of `hold`.
fn copy_out(pool: &[u8], ends: &[u32], hold: &mut [u8], i: usize, at: usize, n: usize)
    requires { Copyable pool.now ends.now i at n (length hold.old) }
    ensures { hold.new ≡ pasted hold.old 0 (take n (drop at (string i (abs pool.now ends.now)))) }
{
    gaps::from_cells::put(hold, 0, part_of(pool, ends, i, at, n));
}

// Takes the first `n` bytes of string `i` away. Front and back stay two functions here and below: each has its theorem, and two to four lines.
pub fn drop_front(pool: &[u8], ends: &mut [u32], i: usize, n: usize)
    requires { Droppable pool.now ends.old i n }
    ensures { Holds pool.now ends.new (dropped_front i n (abs pool.now ends.old)) }
{
    let a = gaps::from_cells::read(ends, 2 * i);
    gaps::from_cells::write(ends, 2 * i, a + n);
}

// Takes the last `n` bytes of string `i` away.
fn drop_back(pool: &[u8], ends: &mut [u32], i: usize, n: usize)
    requires { Droppable pool.now ends.old i n }
    ensures { Holds pool.now ends.new (dropped_back i n (abs pool.now ends.old)) }
{
    let b = gaps::from_cells::read(ends, 2 * i + 1);
    gaps::from_cells::write(ends, 2 * i + 1, b - n);
}

// Puts `bytes` before string `i`. Inlined, as `push_back`: a step of the sample programs takes up to a twentieth more without it.
#[inline(always)]
#[tactic(auto, using(crate::proofs::Laws::has_room))]
pub fn push_front(pool: &mut [u8], ends: &mut [u32], scratch: &mut [u8], i: usize, bytes: &[u8])
    requires { Pushable pool.old ends.old i (length bytes.now) (length scratch.old) }
    ensures { Holds pool.new ends.new (pushed_front i bytes.now (abs pool.old ends.old)) }
{
    gaps::make_room(pool, ends, scratch, i, bytes.len());
    gaps::put_front(pool, ends, i, bytes);
}

// Puts `bytes` behind string `i`.
#[inline(always)]
#[tactic(auto, using(crate::proofs::Laws::has_room))]
pub fn push_back(pool: &mut [u8], ends: &mut [u32], scratch: &mut [u8], i: usize, bytes: &[u8])
    requires { Pushable pool.old ends.old i (length bytes.now) (length scratch.old) }
    ensures { Holds pool.new ends.new (pushed_back i bytes.now (abs pool.old ends.old)) }
{
    gaps::make_room(pool, ends, scratch, i + 1, bytes.len());
    gaps::put_back(pool, ends, i, bytes);
}

// Moves the first `n` bytes of string `i` to the front of string `j`.
#[tactic(auto, using(crate::proofs::Moves::front_moved, crate::proofs::Moves::roomy), unfolding(crate::specs::Store::moved_front))]
fn move_front(
    pool: &mut [u8],
    ends: &mut [u32],
    scratch: &mut [u8],
    hold: &mut [u8],
    i: usize,
    j: usize,
    n: usize,
)
    requires { Movable pool.old ends.old i j n (length scratch.old) (length hold.old) }
    ensures { Holds pool.new ends.new (moved_front i j n (abs pool.old ends.old)) }
{
    copy_out(pool, ends, hold, i, 0, n);
    drop_front(pool, ends, i, n);
    push_front(pool, ends, scratch, j, &hold[..n]);
}

// Moves the first `n` bytes of string `i` to the end of string `j`.
#[tactic(auto, using(crate::proofs::Moves::front_moved, crate::proofs::Moves::roomy), unfolding(crate::specs::Store::moved_front_to_back))]
pub fn move_front_to_back(
    pool: &mut [u8],
    ends: &mut [u32],
    scratch: &mut [u8],
    hold: &mut [u8],
    i: usize,
    j: usize,
    n: usize,
)
    requires { Movable pool.old ends.old i j n (length scratch.old) (length hold.old) }
    ensures { Holds pool.new ends.new (moved_front_to_back i j n (abs pool.old ends.old)) }
{
    copy_out(pool, ends, hold, i, 0, n);
    drop_front(pool, ends, i, n);
    push_back(pool, ends, scratch, j, &hold[..n]);
}

// Moves the last `n` bytes of string `i` to the front of string `j`.
#[tactic(auto, using(crate::proofs::Moves::back_moved, crate::proofs::Moves::roomy), unfolding(crate::specs::Store::moved_back_to_front))]
pub fn move_back_to_front(
    pool: &mut [u8],
    ends: &mut [u32],
    scratch: &mut [u8],
    hold: &mut [u8],
    i: usize,
    j: usize,
    n: usize,
)
    requires { Movable pool.old ends.old i j n (length scratch.old) (length hold.old) }
    ensures { Holds pool.new ends.new (moved_back_to_front i j n (abs pool.old ends.old)) }
{
    let len = len_of(pool, ends, i);
    copy_out(pool, ends, hold, i, len - n, n);
    drop_back(pool, ends, i, n);
    push_front(pool, ends, scratch, j, &hold[..n]);
}

// Exchanges the strings `i` and `j`: all of `i` goes before `j`, and what was `j` back to `i`.
pub fn exchange(
    pool: &mut [u8],
    ends: &mut [u32],
    scratch: &mut [u8],
    hold: &mut [u8],
    i: usize,
    j: usize,
)
    requires { Exchangeable pool.old ends.old i j (length scratch.old) (length hold.old) }
    ensures { Holds pool.new ends.new (exchanged i j (abs pool.old ends.old)) }
{
    let n = len_of(pool, ends, i);
    let m = len_of(pool, ends, j);
    move_front(pool, ends, scratch, hold, i, j, n);
    move_back_to_front(pool, ends, scratch, hold, j, i, m);
}
