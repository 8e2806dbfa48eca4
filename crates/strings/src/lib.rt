// The ninety-nine strings of a state at work, as one value.
#![tactic(auto)]

ghost use Rattle.std.specs.Prelude.{◌≡◌, ◌<◌, ◌≤◌, List, [], ℕ, replicate, length, take, drop};
ghost use Rattle.gaps.specs.Below.LayoutPlaces.{strings_count, strings_bytes, row};
ghost use Rattle.gaps.specs.Pool.{string, abs, Fine};
ghost use Rattle.gaps.specs.Gaps.{pushed_front, pushed_back};
ghost use Rattle.store.specs.Store.{dropped_front, moved_front_to_back, moved_back_to_front, exchanged};
ghost use Rattle.layout.specs.Strings.{strings_in, string_cells};
ghost use Rattle.packing.specs.Packing.{Packed};
ghost use Rattle.strings.specs.Strings.{Within, Droppable, Pushable, Movable};

use layout::StatePlaces;
use std::marker::Model;

#[derive(Drop)]
pub struct Strings {
    pool: [u8; gaps::SIZE],
    ends: [u32; StatePlaces::ENDS_COUNT],
    scratch: [u8; gaps::SIZE],
}

impl Model for Strings {
    ghost Value = { List (List ℕ) };

    ghost view = { λ s. abs s.pool s.ends };

    ghost invariant = { λ s. Fine s.pool s.ends };
}

impl Strings {
    // Ninety-nine empty strings.
    pub fn new() -> Strings
        ensures { result ≡ replicate strings_count [] }
    {
        let pool = [0; gaps::SIZE];
        let ends = [0; StatePlaces::ENDS_COUNT];
        let scratch = [0; gaps::SIZE];
        Strings {
            pool,
            ends,
            scratch,
        }
    }

    // The length of string `i`.
    pub fn len_of(&self, i: usize) -> usize
        requires { i < strings_count }
        ensures { result ≡ length (string i self.now) }
    {
        store::len_of(&self.pool, &self.ends, i)
    }

    // The bytes of string `i`.
    pub fn string_of(&self, i: usize) -> &[u8]
        requires { i < strings_count }
        ensures is { result.now ≡ string i self.now }
        ensures most { length result.now ≤ 32768 }
    {
        store::string_of(&self.pool, &self.ends, i)
    }

    // The `n` bytes of string `i` from `at` on.
    pub fn part_of(&self, i: usize, at: usize, n: usize) -> &[u8]
        requires { Within self.now i at n }
        ensures is { result.now ≡ take n (drop at (string i self.now)) }
        ensures long { length result.now ≡ n }
    {
        store::part_of(&self.pool, &self.ends, i, at, n)
    }

    // Takes the first `n` bytes of string `i` away.
    pub fn drop_front(&mut self, i: usize, n: usize)
        requires { Droppable self.old i n }
        ensures { self.new ≡ dropped_front i n self.old }
    {
        store::drop_front(&self.pool, &mut self.ends, i, n);
    }

    // Puts `bytes` before string `i`.
    pub fn push_front(&mut self, i: usize, bytes: &[u8])
        requires { Pushable self.old i (length bytes.now) }
        ensures { self.new ≡ pushed_front i bytes.now self.old }
    {
        store::push_front(&mut self.pool, &mut self.ends, &mut self.scratch, i, bytes);
    }

    // Puts `bytes` behind string `i`.
    pub fn push_back(&mut self, i: usize, bytes: &[u8])
        requires { Pushable self.old i (length bytes.now) }
        ensures { self.new ≡ pushed_back i bytes.now self.old }
    {
        store::push_back(&mut self.pool, &mut self.ends, &mut self.scratch, i, bytes);
    }

    // Moves the first `n` bytes of string `i` to the end of string `j`.
    pub fn move_front_to_back(&mut self, hold: &mut [u8], i: usize, j: usize, n: usize)
        requires movable { Movable self.old i j n }
        requires room { row ≤ length hold.old }
        ensures { self.new ≡ moved_front_to_back i j n self.old }
    {
        store::move_front_to_back(
            &mut self.pool,
            &mut self.ends,
            &mut self.scratch,
            hold,
            i,
            j,
            n,
        );
    }

    // Moves the last `n` bytes of string `i` to the front of string `j`.
    // Not one with `move_front_to_back`: the two cut and join at other ends, and each caller names one; by a flag each would compute the other away again.
    pub fn move_back_to_front(&mut self, hold: &mut [u8], i: usize, j: usize, n: usize)
        requires movable { Movable self.old i j n }
        requires room { row ≤ length hold.old }
        ensures { self.new ≡ moved_back_to_front i j n self.old }
    {
        store::move_back_to_front(
            &mut self.pool,
            &mut self.ends,
            &mut self.scratch,
            hold,
            i,
            j,
            n,
        );
    }

    // Exchanges the strings `i` and `j`.
    pub fn exchange(&mut self, hold: &mut [u8], i: usize, j: usize)
        requires first { i < strings_count }
        requires second { j < strings_count }
        requires room { row ≤ length hold.old }
        ensures { self.new ≡ exchanged i j self.old }
    {
        store::exchange(
            &mut self.pool,
            &mut self.ends,
            &mut self.scratch,
            hold,
            i,
            j,
        );
    }

    // Lays the strings of a state at rest out.
    pub fn unpack(&mut self, cells: &[u8])
        requires { Packed cells.now }
        ensures { self.new ≡ strings_in cells.now }
    {
        packing::unpack(cells, &mut self.pool, &mut self.ends);
    }

    // Writes the strings in their one form.
    pub fn pack(&self, cells: &mut [u8])
        requires { length cells.old ≡ strings_bytes }
        ensures { cells.new ≡ string_cells self.now }
    {
        packing::pack(&self.pool, &self.ends, cells);
    }
}
