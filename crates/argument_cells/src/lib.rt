// The cells of an instruction's arguments in a program table that is being written: texts and numbers refer to their tables, and the mark of its name stands
// for a label or a switch.
#![tactic(auto)]

ghost use Rattle.std.specs.Prelude.{◌≡◌, ◌<◌};
ghost use Rattle.layout.specs.Table.{letter_place};
ghost use Rattle.table.specs.Denote.{letter_of, ref_number};
ghost use Rattle.argument_cells.specs.ArgumentCells.{TextNamed, TextTold, CellAsked, CellOf};

use entering::from_arguments::{Quoted, ReadArgument};
use entering::from_finding;
use language::Machine;
use layout::{ArgumentKind, Pair};
use table::{Letter, Table, TextRef};

// The reference of a text.
pub fn text_of(text: &[u8], q: Quoted, table: Table) -> TextRef
    requires { TextNamed text.now q table.cells.now }
    ensures { TextTold text.now q table.entry.cells.now (ref_number result) }
{
    let mut word = [0u8; Machine::ITEM];
    let n = spelling::put_text(text, q.at + 1, q.end, &mut word);
    from_finding::text_ref(table, &word[..n])
}

// A letter's place among the twelve. A cast, as in `Forms::letter`: `From<Letter>` would stand in `table` for these two.
fn letter_place(l: Letter) -> usize
    ensures { (result ≡ letter_place (letter_of l)) × (result < 12) }
{
    l as usize
}

// The cell of an argument of the text that is read; `Table::first` and its like give it back.
// Each arm has its own kind and its own value, and `Nothing` has neither, so each gives its cell whole.
pub fn argument_cell(text: &[u8], x: ReadArgument, table: Table) -> usize
    requires { CellAsked text.now x table.cells.now }
    ensures { CellOf text.now x table.entry.cells.now result }
{
    match x {
        ReadArgument::Nothing => 0,
        ReadArgument::Indexed(l, n) => {
            let pair = Pair {
                first: n,
                second: letter_place(l),
            };
            ArgumentKind::Letter.cell(pair.number())
        }
        ReadArgument::Label(mark) => ArgumentKind::Label.cell(mark),
        ReadArgument::Switch(mark) => ArgumentKind::Switch.cell(mark),
        ReadArgument::Class(m) => ArgumentKind::Class.cell(usize::from(m)),
        ReadArgument::Text(q) => ArgumentKind::Text.cell(text_of(text, q, table).number()),
        ReadArgument::Number(code) => {
            ArgumentKind::Number.cell(from_finding::number_ref(table, code))
        }
    }
}

// Of `arguments`, passed on to the crates above.
pub mod from_arguments {
    pub use entering::from_arguments::{Quoted, Value};
}

// Of `entering`, passed on to the crates above.
pub mod from_entering {
    pub use entering::{enter_number_values, enter_text_of, enter_text_values};
}
