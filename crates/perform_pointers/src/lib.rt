// The instructions of pointers, exchanges and constants, from the arguments of instruction `i`.
#![tactic(auto)]

ghost use Rattle.std.specs.Prelude.{◌≡◌};
ghost use Rattle.language.specs.Program.Op.{SCHOWAJ, USTAW, ZAMIEN, UMIESC, COFNIJ};
ghost use Rattle.instructions.specs.Questions.{told_by};
ghost use Rattle.table.specs.declared.Argument.TheVariants.{Text};
ghost use Rattle.performing.specs.Operating.{PerformsFor};
ghost use Rattle.performing.specs.Places.{CarryingAt};
ghost use Rattle.perform_pointers.specs.Texts.{IsText};

use instructions::{Bench, Question};
use table::{Table, TextRef};

// SCHOWAJ.
pub fn do_schowaj(table: Table, bench: &mut Bench, i: usize) -> Result<(), Question>
    requires { CarryingAt table.cells.now bench.old.state SCHOWAJ i }
    ensures { PerformsFor table.entry.cells.now bench.old.state (told_by result) bench.new.state }
{
    let index = decoding::index_of(table.first(i));
    let target = decoding::target_of(table.second(i));
    pointers::schowaj(bench, index, target)
}

// USTAW.
pub fn do_ustaw(table: Table, bench: &mut Bench, i: usize) -> Result<(), Question>
    requires { CarryingAt table.cells.now bench.old.state USTAW i }
    ensures { PerformsFor table.entry.cells.now bench.old.state (told_by result) bench.new.state }
{
    let source = decoding::source_of(table.first(i));
    let j = decoding::index_of(table.second(i));
    pointers::ustaw(bench, source, j)
}

// ZAMIEN of expressions or of files.
pub fn do_zamien(table: Table, bench: &mut Bench, i: usize) -> Result<(), Question>
    requires { CarryingAt table.cells.now bench.old.state ZAMIEN i }
    ensures { PerformsFor table.entry.cells.now bench.old.state (told_by result) bench.new.state }
{
    let x = table.first(i);
    let index = decoding::index_of(x);
    let j = decoding::index_of(table.second(i));
    match decoding::variable_of(x) {
        decoding::Variable::Expression => pointers::zamien_exprs(bench, index, j),
        decoding::Variable::File => pointers::zamien_files(bench, index, j),
        _ => unreachable!(),
    }
}

// What an argument that is a text refers to.
// As `label_of` and `switch_of` of `decoding`: one function would take a closure that matches.
fn text_of(a: table::Argument) -> TextRef
    requires { IsText a }
    ensures { a ≡ Text result }
{
    match a {
        table::Argument::Text(text) => text,
        _ => unreachable!(),
    }
}

// UMIESC to a file, an output or an expression.
pub fn do_umiesc(table: Table, bench: &mut Bench, i: usize) -> Result<(), Question>
    requires { CarryingAt table.cells.now bench.old.state UMIESC i }
    ensures { PerformsFor table.entry.cells.now bench.old.state (told_by result) bench.new.state }
{
    let y = table.second(i);
    match decoding::variable_of(y) {
        decoding::Variable::File => {
            let target = decoding::file_target_of(y);
            constants::umiesc_file(table, bench, target, table.first(i))
        }
        decoding::Variable::Output => {
            let j = decoding::index_of(y);
            let text = text_of(table.first(i));
            constants::umiesc_output(table, bench, j, text)
        }
        decoding::Variable::Expression => {
            let target = decoding::target_of(y);
            constants::umiesc_expr(table, bench, target, table.first(i))
        }
        _ => unreachable!(),
    }
}

// COFNIJ.
pub fn do_cofnij(table: Table, bench: &mut Bench, i: usize) -> Result<(), Question>
    requires { CarryingAt table.cells.now bench.old.state COFNIJ i }
    ensures { PerformsFor table.entry.cells.now bench.old.state (told_by result) bench.new.state }
{
    let index = decoding::index_of(table.first(i));
    pointers::cofnij(bench, index)
}
