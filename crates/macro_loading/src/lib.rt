// Load: from a text to the program table, or the number and the line of the first question answered no.
#![tactic(auto)]

ghost use Rattle.loading.specs.Texts.{Leaves};
ghost use Rattle.macro_loading.specs.Loading.{Loads, Rewritable};
ghost use Rattle.macros.specs.Load.{loaded};
ghost use Rattle.macros.specs.Prepared.{prepared};

use language::Machine;
use loading::Loaded;
use macro_code::CodePlaces;
use statements::{Question, Rejected};

// A text with macros: its written-out text is loaded, with the lines of the given one. The table's cells are zeros. The row of cells serves for
// names again.
fn load_written(text: &[u8], table: &mut [u32]) -> Loaded
    requires { Rewritable text.now table.old }
    ensures { Leaves (loaded (prepared text.now)) table.old result table.new }
{
    let mut out = [0u8; Machine::TEXT];
    let mut lines = [0u16; Machine::TEXT];
    let mut code = [0u32; CodePlaces::CELLS];
    let n = macro_preparing::prepare(text, &mut out, &mut lines, &mut code)?;
    let names = code.first_chunk_mut().unwrap();
    loading::load_lined(&out[..n], &lines[..n], names, table)
}

// Most texts have no macros, and one with macros is refused as it stands: so macros are sought in a refused text alone.
pub fn load(text: &[u8], table: &mut [u32]) -> Loaded
    ensures { Loads text.now table.old result table.new }
{
    if (table.len() < Machine::TABLE) | (Machine::TEXT < text.len()) {
        return Err(Rejected {
            question: Question::Size,
            line: 0,
        });
    }
    let typed = loading::load_typed(text, table);
    if typed.is_ok() {
        return typed;
    }
    if !macro_marks::has_macros(text) {
        return typed;
    }
    load_written(text, table)
}

// Of `loading`, passed on to the crates above.
pub mod from_loading {
    pub use loading::Loaded;
}
