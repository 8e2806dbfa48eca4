// Calls that change nothing any more, remembered beside the cells of the nested calls.
#![tactic(auto)]

ghost use Rattle.std.specs.Prelude.{◌≡◌, true, List, ℕ, ◌+◌, ◌-◌, ◌≤◌, ◌<◌, length, get_or};
ghost use Rattle.macro_values.specs.declared.Written.{Written};
ghost use Rattle.macro_code.specs.Bounds.{near, far};
ghost use Rattle.macro_code.specs.Code.{given_in, arguments_in};
ghost use Rattle.macro_code.specs.Places.{half};
ghost use Rattle.macros.specs.Expansion.{filled_in, levels};
ghost use Rattle.macro_memory.specs.Memory.{reach, Lookable, Like, Alike, Found, Remembers, Stored};

use macro_code::{CodePlaces, Coded, LEVELS, argument_cell};
use macro_values::{Around, Written, cell_at};

// How many calls are remembered at most.
const SLOTS: usize = 128;

// The slots are in groups, and the numbers of calls, below 65,536, are shared out to these.
const GROUP: usize = 8;

const GROUPS: usize = 16;

const SHARE: usize = 4096;

// Room for what two arguments stand for.
const ROOM: usize = 128;

// A call that is remembered: a number by its macro, levels and arguments; the levels left around it, 0 in a slot that is free; the cell of its macro;
// and the calls around it with itself.
// 0 and no `Option<Slot>`: a call has a level at least, so a free slot is like none, with no test of its own.
#[derive(Clone, Copy, Debug, PartialEq, Eq)]
pub struct Slot {
    pub print: usize,
    pub left: usize,
    pub body: usize,
    pub calls: [u32; LEVELS],
}

// The cells of the nested calls; the calls that are remembered; and for each group which of its slots is taken next.
#[derive(Drop)]
pub struct Memory {
    pub calls: [u32; LEVELS],
    pub slots: [Slot; SLOTS],
    pub turns: [usize; GROUPS],
}

// Two calls, or an argument of each.
#[derive(Clone, Copy, Debug, PartialEq, Eq)]
struct Pair {
    one: usize,
    other: usize,
}

// A macro, the section or a change: its cell; and how many levels are left there.
#[derive(Clone, Copy, Debug, PartialEq, Eq)]
pub struct Level {
    pub cell: usize,
    pub left: usize,
}

// A call: its cell; how many levels are left around it; and the cell of its macro.
#[derive(Clone, Copy, Debug, PartialEq, Eq)]
pub struct Entered {
    pub cell: usize,
    pub left: usize,
    pub body: usize,
}

// Whether two arguments, the other one within other calls, stand for the same bytes. Those that have no room are taken for different ones: a no is
// always right, here and in all that goes by this, since it costs time alone.
fn same_given(here: &Around, others: &[u32], pair: Pair) -> bool
    requires { (pair.one < far) × (pair.other < far) }
    ensures { result ≡ true → filled_in (arguments_in here.now.coded.text.now here.now.coded.code.now here.now.calls.now here.now.depth) (given_in here.now.coded.text.now here.now.coded.code.now pair.one) ≡ filled_in (arguments_in here.now.coded.text.now here.now.coded.code.now others.now here.now.depth) (given_in here.now.coded.text.now here.now.coded.code.now pair.other) }
{
    let there = Around {
        calls: others,
        ..*here
    };
    let mut row = [0u8; ROOM];
    let first = here.write_given(pair.one, &mut row, Written::nothing());
    let both = there.write_given(pair.other, &mut row, first);
    let Some(n) = first.count else { return false };
    let Some(end) = both.count else { return false };
    let written = &row[..end];
    written[..n] == written[n..]
}

// Whether two calls, the other one within other calls, have the same arguments.
fn same_arguments(here: &Around, others: &[u32], pair: Pair) -> bool
    requires { (pair.one < reach) × (pair.other < reach) }
    ensures { result ≡ true → Alike here.now.coded.text.now here.now.coded.code.now here.now.calls.now others.now here.now.depth pair.one pair.other }
{
    let n = here.coded.low(pair.one + CodePlaces::KIND);
    if n != here.coded.low(pair.other + CodePlaces::KIND) {
        return false;
    }
    (0..n).all(|k| {
        let given = Pair {
            one: argument_cell(pair.one, k),
            other: argument_cell(pair.other, k),
        };
        same_given(here, others, given)
    })
}

// A number by some bytes, from a first number on.
fn mix(bytes: &[u8], first: usize) -> usize
    ensures { result < half }
{
    let mut h = first % CodePlaces::HALF as usize;
    for b in bytes {
        h = (h + usize::from(*b)) * 40503 % CodePlaces::HALF as usize;
    }
    h
}

// How many bytes of a row are filled: none of them is 0.
fn filled(row: &[u8]) -> usize
    ensures { result ≤ length row.now }
{
    row.iter().position(|b| *b == 0).unwrap_or(row.len())
}

// A number of a call, by its macro, its levels and as much of its arguments as there is room for: also of one that runs over, since calls that differ
// in that one alone would have one number and one group. Only the bytes that are written go into it: zeros behind them would lead calls of one length
// into few groups.
fn print_of(here: &Around, at: Entered) -> usize
    requires { Lookable at here.now }
    ensures { result < half }
{
    let mut row = [0u8; ROOM];
    let mut w = Written::nothing();
    for k in 0..here.coded.low(at.cell + CodePlaces::KIND) {
        w = here.write_given(argument_cell(at.cell, k), &mut row, w);
    }
    let n = match w.count {
        Some(n) => n,
        None => filled(&row),
    };
    mix(&row[..n], at.body * LEVELS + here.depth)
}

impl Slot {
    // Whether it has a call of the same macro, levels and arguments.
    fn is_like(&self, here: &Around, at: Entered) -> bool
        requires { Lookable at here.now }
        ensures { result ≡ true → Like here.now.coded.text.now here.now.coded.code.now here.now.calls.now at self.now }
    {
        if self.left != at.left || self.body != at.body {
            return false;
        }
        let pair = Pair {
            one: at.cell,
            other: cell_at(&self.calls, here.depth),
        };
        same_arguments(here, &self.calls, pair)
    }
}

impl Memory {
    // Nothing is remembered.
    pub fn new() -> Memory
        ensures { (s c f : List ℕ) (n : ℕ) (v : Written) → Remembers s c f n result.slots v }
    {
        let free = Slot {
            print: 0,
            left: 0,
            body: 0,
            calls: [0; LEVELS],
        };
        Memory {
            calls: [0; LEVELS],
            slots: [free; SLOTS],
            turns: [0; GROUPS],
        }
    }

    // The nested calls around a call that has so many levels left around it.
    pub fn around<'a, 'b>(&'b self, coded: &Coded<'a>, left: usize) -> Around<'a, 'b>
        requires { left ≤ levels }
        ensures { (result.coded ≡ coded.now) × (result.calls.now ≡ self.now.calls) × (result.depth ≡ levels - left) }
    {
        Around {
            coded: *coded,
            calls: &self.calls,
            depth: LEVELS - left,
        }
    }

    // Whether a slot of its group has a call. A slot with another number is passed over.
    fn look(&self, here: &Around, at: Entered) -> bool
        requires { Lookable at here.now }
        ensures { result ≡ true → Found here.now.coded.text.now here.now.coded.code.now self.now.slots here.now.calls.now at.left at.cell at.body }
    {
        let print = print_of(here, at);
        let first = GROUP * (print / SHARE);
        self.slots[first..first + GROUP]
            .iter()
            .any(|slot| slot.print == print && slot.is_like(here, at))
    }

    // Whether a call within the nested calls is remembered. A no is always right.
    pub fn has(&self, coded: &Coded, at: Entered) -> bool
        requires { (at.cell < reach) × (1 ≤ at.left) × (at.left ≤ levels) × (at.body < half) }
        ensures { result ≡ true → Found coded.now.text.now coded.now.code.now self.now.slots self.now.calls at.left at.cell at.body }
    {
        self.look(&self.around(coded, at.left), at)
    }

    // Puts the innermost of the nested calls into its group, in place of the one that came first.
    fn store(&mut self, at: Entered, print: usize)
        requires { (1 ≤ at.left) × (print < half) }
        ensures { Stored self.old self.new at.left at.body }
    {
        let group = print / SHARE;
        let turn = self.turns[group] % GROUP;
        self.slots[GROUP * group + turn] = Slot {
            print,
            left: at.left,
            body: at.body,
            calls: self.calls,
        };
        self.turns[group] = turn + 1;
    }

    // The innermost of the nested calls, by the body of its macro.
    fn innermost(&self, body: Level) -> Entered
        requires { body.left < levels }
        ensures { (result.cell ≡ get_or self.now.calls (levels - body.left - 1) 0) × (result.cell < near) × (result.left ≡ body.left + 1) × (result.body ≡ body.cell) }
    {
        Entered {
            cell: cell_at(&self.calls, LEVELS - body.left - 1),
            left: body.left + 1,
            body: body.cell,
        }
    }

    // Remembers the innermost of the nested calls, by the body of its macro.
    pub fn remember(&mut self, coded: &Coded, body: Level)
        requires { (body.left < levels) × (body.cell < half) }
        ensures { Stored self.old self.new (body.left + 1) body.cell }
    {
        let at = self.innermost(body);
        let print = print_of(&self.around(coded, at.left), at);
        self.store(at, print);
    }
}
