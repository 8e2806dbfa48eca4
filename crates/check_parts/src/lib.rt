// The parts of a program table, one by one, for question 62: characters, texts, numbers, labels, entries, arguments and instructions. Cells past
// the table count as zero.
#![tactic(auto)]

ghost use Rattle.std.specs.Prelude.{◌≡◌, ◌+◌, ◌≤◌, ◌<◌};
ghost use Rattle.cells.specs.Cells.{Number};
ghost use Rattle.language.specs.Limits as limit;
ghost use Rattle.layout.specs.Cells.{cell};
ghost use Rattle.packed.specs.Packed.{table_of};
ghost use Rattle.check_parts.specs.Parts.{zeros, char, char_fits, chars_fit, text_fits, rows_same, texts_same, number_fits, label_fits, ref_fits, entry_fits};

use language::Machine;
use layout::{EntryCell, Pair, TablePlaces};
use table::Table;

// Cell `k` as a number, and 0 past the table.
pub fn read(table: Table, k: usize) -> usize
    ensures { Number (cell (table_of table.entry.cells.now) k) 4294967296 result }
{
    table.cell_at(k) as usize
}

// Whether the cells from `from` up to `to` are zero.
pub fn zeros(table: Table, from: usize, to: usize) -> bool
    ensures { result ≡ zeros (table_of table.entry.cells.now) from to }
{
    (from..to).all(|k| read(table, k) == 0)
}

// Character `j` of those from cell `at` on.
#[tactic(auto, using(crate::proofs::Chars::char_by))]
fn char_at(table: Table, at: usize, j: usize) -> u8
    requires { at + j < 65536 }
    ensures { result ≡ char (table_of table.entry.cells.now) at j }
{
    ((read(table, at + j / 4) >> (8 * (j % 4))) % 256) as u8
}

// Whether character `j` is one of a name or a text of `n`, or 0 behind it. The definition takes a Bool for `name`, so an enum would add a mapping.
#[tactic(auto, unfolding(crate::specs::Parts::char_fits))]
fn char_fits(table: Table, at: usize, n: usize, name: bool, j: usize) -> bool
    requires { at + j < 65536 }
    ensures { result ≡ char_fits (table_of table.entry.cells.now) at n name j }
{
    let b = char_at(table, at, j);
    if n <= j {
        return b == 0;
    }
    if name {
        return characters::is_capital(b) | characters::is_digit(b);
    }
    characters::is_known(b)
}

fn chars_fit(table: Table, at: usize, n: usize, name: bool) -> bool
    requires { at < 65000 }
    ensures { result ≡ chars_fit (table_of table.entry.cells.now) at n name }
{
    (0..Machine::ITEM).all(|j| char_fits(table, at, n, name, j))
}

// Whether text `k` has 2 to 60 characters.
#[tactic(auto, unfolding(crate::specs::Parts::text_fits))]
pub fn text_fits(table: Table, k: usize) -> bool
    requires { k < 512 }
    ensures { result ≡ text_fits (table_of table.entry.cells.now) k }
{
    let n = read(table, TablePlaces::FIRST_TEXT + TablePlaces::TEXT_SIZE * k);
    (1 < n)
        & (n <= Machine::ITEM)
        & chars_fit(
            table,
            TablePlaces::FIRST_CHARACTERS + TablePlaces::TEXT_SIZE * k,
            n,
            false,
        )
}

// Whether the cells of two texts that lie in the table, from `first` and from `second` on, are the same. By `read` each cell asks whether it lies there.
fn rows_same(table: Table, first: usize, second: usize) -> bool
    requires { (first + 16 ≤ limit.table) × (second + 16 ≤ limit.table) }
    ensures { result ≡ rows_same (table_of table.entry.cells.now) first second }
{
    for q in 0..TablePlaces::TEXT_SIZE {
        if table.cells[first + q] != table.cells[second + q] {
            return false;
        }
    }
    true
}

// Whether the texts `i` and `j` have the same cells.
pub fn texts_same(table: Table, i: usize, j: usize) -> bool
    requires { i + j < 512 }
    ensures { result ≡ texts_same (table_of table.entry.cells.now) i j }
{
    let first = TablePlaces::FIRST_TEXT + TablePlaces::TEXT_SIZE * i;
    let second = TablePlaces::FIRST_TEXT + TablePlaces::TEXT_SIZE * j;
    if first.max(second) + TablePlaces::TEXT_SIZE <= Machine::TABLE {
        return rows_same(table, first, second);
    }
    (0..TablePlaces::TEXT_SIZE).all(|q| read(table, first + q) == read(table, second + q))
}

// Whether number `k` is in range and beyond 15 in size.
#[tactic(auto, using(table::specs::ReadLaws::not_small), unfolding(crate::specs::Parts::number_fits))]
pub fn number_fits(table: Table, k: usize) -> bool
    requires { k < 512 }
    ensures { result ≡ number_fits (table_of table.entry.cells.now) k }
{
    let x = read(table, TablePlaces::FIRST_NUMBER + k);
    (x <= 2 * Machine::SIZE) & !table::is_small(x as u32)
}

// Whether label `k` has a name of 1 to 60 characters, and an instruction.
#[tactic(auto, unfolding(crate::specs::Parts::label_fits))]
pub fn label_fits(table: Table, k: usize) -> bool
    requires { k < 512 }
    ensures { result ≡ label_fits (table_of table.entry.cells.now) k }
{
    let head = Pair::of(read(
        table,
        TablePlaces::FIRST_LABEL + TablePlaces::LABEL_SIZE * k,
    ));
    let n = head.first;
    let at = TablePlaces::FIRST_NAME + TablePlaces::LABEL_SIZE * k;
    (0 < n)
        & (n <= Machine::ITEM)
        & characters::is_capital(char_at(table, at, 0))
        & chars_fit(table, at, n, true)
        & (head.second < table.instructions())
}

// Whether `v` refers to one of the characters or to a text of the table.
#[tactic(auto, unfolding(crate::specs::Parts::ref_fits))]
pub fn ref_fits(table: Table, v: usize) -> bool
    ensures { result ≡ ref_fits (table_of table.entry.cells.now) v }
{
    if v < TablePlaces::SHORT_TEXTS {
        return characters::is_known(v as u8);
    }
    v < TablePlaces::SHORT_TEXTS + table.texts()
}

// Whether entry `k` of a switch has a label, and a text only where the switch is by name. `named` is a Bool, as the specification's `goes_by_name`.
#[tactic(auto, unfolding(crate::specs::Parts::entry_fits))]
pub fn entry_fits(table: Table, named: bool, k: usize) -> bool
    requires { k < 65536 }
    ensures { result ≡ entry_fits (table_of table.entry.cells.now) named k }
{
    let entry = EntryCell::of(read(table, TablePlaces::FIRST_ENTRY + k));
    (entry.label < table.labels()) & ((entry.text == 0) | (named & ref_fits(table, entry.text)))
}
