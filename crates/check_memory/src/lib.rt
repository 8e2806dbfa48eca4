// Question 63 as tests of the cells, one after the other: numbers and zeros, strings, totals, addresses.
#![tactic(auto)]

ghost use Rattle.std.specs.Prelude.{◌≡◌, ◌≤◌, ◌<◌, length, cond, Some, None};
ghost use Rattle.layout.specs.Cells.{three_at};
ghost use Rattle.lists.specs.Lists.{all};
ghost use Rattle.check_strings.specs.Sound.{sound_components, sound_records};
ghost use Rattle.check_memory.specs.Passes.{zeros, laid, expressions, halves, sound, is_total, counted, distinct};
ghost use Rattle.check_memory.specs.Reads.{Measurable, Started, Ended, Roomy, StringLent, BothWhole, StringSums, AllSums, Comparable};
ghost use Rattle.language.specs.Limits as limit;
ghost use Rattle.layout.specs.Places.{strings_count, stack_string, last_cell};

use language::Machine;
use layout::StatePlaces;
use std::marker::Model;

// What the components and the records of some strings come to. No `Amount` with the records beside it: the bytes of many strings are not asked for.
#[derive(Clone, Copy, Debug, PartialEq, Eq)]
pub struct Sums {
    pub parts: usize,
    pub chars: usize,
    pub records: usize,
}

// Without a branch, so that the loop takes many cells at once.
fn are_zeros(cells: &[u8]) -> bool
    ensures { result ≡ zeros cells.now }
{
    let mut good = true;
    for x in cells {
        good &= *x == 0;
    }
    good
}

// Writes where the strings start, and tells where the last one ends.
fn starts_of(m: &[u8], starts: &mut [u32]) -> usize
    requires { Measurable m.now (length starts.old) }
    ensures { Started m.now starts.new result }
{
    let mut at = StatePlaces::FIRST_BYTE;
    for i in 0..StatePlaces::STRINGS_COUNT {
        cells::write(starts, i, at);
        at += cells::two_at(m, StatePlaces::FIRST_LENGTH + 2 * i);
    }
    at
}

// Whether H and the last address given are in range, the strings have room, and the cells from `end` on are zeros.
fn is_laid(m: &[u8], end: usize) -> bool
    requires { Ended m.now end }
    ensures { result ≡ laid m.now }
{
    if Machine::STATE < end {
        return false;
    }
    (cells::three_at(m, StatePlaces::PLUS_CELL) <= 1)
        & (cells::three_at(m, StatePlaces::LAST_CELL) <= Machine::ADDRESSES)
        & are_zeros(&m[end..])
}

fn is_total(most: usize, told: usize, n: usize) -> bool
    ensures { result ≡ is_total most told n }
{
    (n == told) & (n <= most)
}

// A state's cells, with the places where its strings start. Its value is the cells.
#[derive(Drop)]
pub struct Memory<'a> {
    cells: &'a [u8],
    starts: [u32; StatePlaces::STRINGS_COUNT],
}

impl<'a> Model for Memory<'a> {
    ghost use Rattle.std.specs.Prelude.{List, ℕ};
    ghost use Rattle.check_memory.specs.Reads.{Readable};

    ghost Value = { List ℕ };

    ghost view = { λ s. s.cells.now };

    ghost invariant = { λ s. Readable s.cells.now s.starts };
}

impl<'a> Memory<'a> {
    // Of cells whose strings have room.
    pub fn new(cells: &'a [u8]) -> Memory<'a>
        requires { Roomy cells.now }
        ensures { result ≡ cells.now }
    {
        let mut starts = [0u32; StatePlaces::STRINGS_COUNT];
        starts_of(cells, &mut starts);
        Memory { cells, starts }
    }

    // Of any cells, if their numbers are in range, their strings have room, and the rest is zeros.
    pub fn laid(cells: &'a [u8]) -> Option<Memory<'a>>
        requires { length cells.now ≡ limit.state }
        ensures { result ≡ cond (laid cells.now) (Some cells.now) None }
    {
        let mut starts = [0u32; StatePlaces::STRINGS_COUNT];
        let end = starts_of(cells, &mut starts);
        if !is_laid(cells, end) {
            return None;
        }
        Some(Memory { cells, starts })
    }

    pub fn cells(&self) -> &'a [u8]
        ensures is { result.now ≡ self.now }
        ensures long { length result.now ≡ limit.state }
    {
        self.cells
    }

    // String `k`.
    #[tactic(auto, using(crate::proofs::Starts::string_within, crate::proofs::Starts::string_lent))]
    pub fn string(&self, k: usize) -> &'a [u8]
        requires { k < strings_count }
        ensures { StringLent self.now k result.now }
    {
        let from = cells::read(&self.starts, k);
        let to = from + cells::two_at(self.cells, StatePlaces::FIRST_LENGTH + 2 * k);
        &self.cells[from..to]
    }

    // All that this shares with `are_files` is std's `all`.
    fn are_expressions(&self, last: usize) -> bool
        requires { last ≤ limit.addresses }
        ensures { result ≡ all (sound_components last) (expressions self.now) }
    {
        (0..Machine::EXPRESSIONS).all(|i| check_strings::are_components(self.string(i), last))
    }

    fn are_files(&self, last: usize) -> bool
        requires { last ≤ limit.addresses }
        ensures { result ≡ all (sound_records last) (halves self.now) }
    {
        (0..StatePlaces::FILE_STRINGS_COUNT).all(|i| check_strings::are_records(
            self.string(StatePlaces::FIRST_FILE + i),
            last,
        ))
    }

    // Whether expressions and files are whole and without faults.
    #[tactic(auto, unfolding(crate::specs::Passes::sound))]
    pub fn is_sound(&self) -> bool
        requires { three_at last_cell self.now ≤ limit.addresses }
        ensures { result ≡ sound self.now }
    {
        let last = cells::three_at(self.cells, StatePlaces::LAST_CELL);
        self.are_expressions(last) & self.are_files(last)
    }

    // What string `k` holds, that of an expression or of a file.
    fn sums_of(&self, k: usize) -> Sums
        requires whole { BothWhole self.now }
        requires below { k < stack_string }
        ensures { StringSums self.now k result }
    {
        let v = self.string(k);
        if k < StatePlaces::FIRST_FILE {
            let t = matching::count(v, matching::Test::All);
            return Sums {
                parts: t.amount.parts,
                chars: t.amount.chars,
                records: 0,
            };
        }
        let t = records::totals_of(v);
        let q = records::count(v, records::RecordTest::First(matching::Test::All));
        Sums {
            parts: t.parts,
            chars: t.chars,
            records: q.end.records,
        }
    }

    // What the expressions and the files hold: the strings before that of the stack.
    pub fn totals(&self) -> Sums
        requires { BothWhole self.now }
        ensures { AllSums self.now result }
    {
        let mut parts = 0;
        let mut chars = 0;
        let mut records = 0;
        for k in 0..StatePlaces::STACK_STRING {
            let s = self.sums_of(k);
            parts += s.parts;
            chars += s.chars;
            records += s.records;
        }
        Sums {
            parts,
            chars,
            records,
        }
    }

    // Whether the totals are those told, and within their limits.
    #[tactic(auto, unfolding(crate::specs::Passes::counted))]
    pub fn is_counted(&self) -> bool
        requires { BothWhole self.now }
        ensures { result ≡ counted self.now }
    {
        let t = self.totals();
        is_total(
            Machine::COMPONENTS,
            cells::three_at(self.cells, StatePlaces::COMPONENTS_CELL),
            t.parts,
        ) & is_total(
            Machine::CHARACTERS,
            cells::three_at(self.cells, StatePlaces::CHARACTERS_CELL),
            t.chars,
        ) & is_total(
            Machine::RECORDS,
            cells::three_at(self.cells, StatePlaces::RECORDS_CELL),
            t.records,
        )
    }

    // Whether no two records have one address. `list` is for the addresses.
    pub fn is_distinct(&self, list: &mut [u32]) -> bool
        requires { Comparable self.now (length list.old) }
        ensures { result ≡ distinct self.now }
    {
        let mut n = 0;
        for i in 0..StatePlaces::FILE_STRINGS_COUNT {
            n += check_addresses::collect(self.string(StatePlaces::FIRST_FILE + i), &mut list[n..]);
        }
        check_addresses::are_different(&list[..n])
    }
}
