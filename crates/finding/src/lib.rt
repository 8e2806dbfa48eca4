// Searches in a program table while it is written: the place of a text, a number or a label; and the references of texts and numbers in the cells of arguments
// and entries.
#![tactic(auto)]

ghost use Rattle.language.specs.Values.{same_number};
ghost use Rattle.layout.specs.Table.{text_ref, number_ref};
ghost use Rattle.lists.specs.Lists.{bytes_equal};
ghost use Rattle.writing.specs.Writing.{IsNumber};
ghost use Rattle.table.specs.Denote.{ref_number};
ghost use Rattle.finding.specs.Finding.{Counted, Locates, LocatesFor, Tells, TellsFor};

use language::Machine;
use layout::TablePlaces;
use table::{Table, TextRef, is_small};

// The text `word` among the texts.
pub fn find_text(table: Table, word: &[u8]) -> Option<usize>
    requires { Counted table.cells.now 4 128 }
    ensures { Locates table.entry.cells.now (λ p. p.texts) (bytes_equal word.now) result }
{
    (0..table.texts()).find(|k| table.text_is(TextRef::Place(*k), word))
}

// The number whose value + 8,388,607 is `code` among the numbers.
pub fn find_number(table: Table, code: u32) -> Option<usize>
    requires { Counted table.cells.now 5 128 }
    ensures { LocatesFor table.entry.cells.now (IsNumber code) (λ p. p.numbers) same_number result }
{
    let first = TablePlaces::FIRST_NUMBER;
    table.cells[first..first + table.numbers()]
        .iter()
        .position(|x| *x == code)
}

// The label `name` among the labels of instructions.
pub fn find_label(table: Table, name: &[u8]) -> Option<usize>
    requires { Counted table.cells.now 1 128 }
    ensures { Locates table.entry.cells.now (λ p. p.labels) (λ l. bytes_equal name.now l.name) result }
{
    (0..table.labels()).find(|k| table.name_is(*k, name))
}

// The reference of a text; the place of one that is not there is their count.
// No Option here and in `number_ref`: the specification gives the count too, and what a reference is asked of came to the table before.
pub fn text_ref(table: Table, word: &[u8]) -> TextRef
    requires { Counted table.cells.now 4 128 }
    ensures { Tells table.entry.cells.now (λ p. text_ref p word.now) 384 (ref_number result) }
{
    match word {
        [] => TextRef::Empty,
        [b] => TextRef::Byte(*b),
        _ => TextRef::Place(find_text(table, word).unwrap_or(table.texts())),
    }
}

// The reference of a number: its value + 15 within ±15, otherwise the count of such
// numbers and its place in the table of numbers, or how many that has where it is not there.
// A number and no enum, since it is the cell's own (docs/LAYOUT.md), and the table's reader takes it for the value and never for a place alone.
pub fn number_ref(table: Table, code: u32) -> usize
    requires { Counted table.cells.now 5 128 }
    ensures { TellsFor table.entry.cells.now (IsNumber code) (λ z p. number_ref p z) 159 result }
{
    if is_small(code) {
        return code as usize - (Machine::SIZE - Machine::SMALL);
    }
    TablePlaces::SMALL_NUMBERS + find_number(table, code).unwrap_or(table.numbers())
}
