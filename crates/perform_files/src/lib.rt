// The instructions of files and constants, from the arguments of instruction `i`.
#![tactic(auto)]

ghost use Rattle.language.specs.Operators.{op_by};
ghost use Rattle.language.specs.Program.Op.{KOPIUJ, WSTAW, POBIERZ, SKRESL, OMIN};
ghost use Rattle.instructions.specs.Questions.{told_by};
ghost use Rattle.perform_pointers.specs.Below.Operating.{PerformsFor};
ghost use Rattle.perform_pointers.specs.Below.Places.{CarryingAt};
ghost use Rattle.perform_files.specs.Filing.{Filing};

use instructions::{Bench, Question};
use language::Operator;
use perform_pointers::{do_cofnij, do_schowaj, do_umiesc, do_ustaw, do_zamien};
use table::Table;

// KOPIUJ.
fn do_kopiuj(table: Table, bench: &mut Bench, i: usize) -> Result<(), Question>
    requires { CarryingAt table.cells.now bench.old.state KOPIUJ i }
    ensures { PerformsFor table.entry.cells.now bench.old.state (told_by result) bench.new.state }
{
    let source = decoding::file_of(table.first(i));
    let target = decoding::file_target_of(table.second(i));
    copying::kopiuj(table, bench, source, target, table.third(i))
}

// WSTAW.
fn do_wstaw(table: Table, bench: &mut Bench, i: usize) -> Result<(), Question>
    requires { CarryingAt table.cells.now bench.old.state WSTAW i }
    ensures { PerformsFor table.entry.cells.now bench.old.state (told_by result) bench.new.state }
{
    let source = decoding::source_of(table.first(i));
    let target = decoding::file_target_of(table.second(i));
    transfers::wstaw(bench, source, target)
}

// POBIERZ.
fn do_pobierz(table: Table, bench: &mut Bench, i: usize) -> Result<(), Question>
    requires { CarryingAt table.cells.now bench.old.state POBIERZ i }
    ensures { PerformsFor table.entry.cells.now bench.old.state (told_by result) bench.new.state }
{
    let source = decoding::file_of(table.first(i));
    let target = decoding::target_of(table.second(i));
    transfers::pobierz(bench, source, target)
}

// SKRESL.
fn do_skresl(table: Table, bench: &mut Bench, i: usize) -> Result<(), Question>
    requires { CarryingAt table.cells.now bench.old.state SKRESL i }
    ensures { PerformsFor table.entry.cells.now bench.old.state (told_by result) bench.new.state }
{
    let index = decoding::index_of(table.first(i));
    copying::skresl(table, bench, index, table.second(i))
}

// OMIN.
fn do_omin(table: Table, bench: &mut Bench, i: usize) -> Result<(), Question>
    requires { CarryingAt table.cells.now bench.old.state OMIN i }
    ensures { PerformsFor table.entry.cells.now bench.old.state (told_by result) bench.new.state }
{
    let index = decoding::index_of(table.first(i));
    copying::omin(table, bench, index, table.second(i))
}

// The instruction of an operator.
pub fn perform_file(table: Table, bench: &mut Bench, op: Operator, i: usize) -> Result<(), Question>
    requires { Filing table.cells.now bench.old.state (op_by op) i }
    ensures { PerformsFor table.entry.cells.now bench.old.state (told_by result) bench.new.state }
{
    match op {
        Operator::KOPIUJ => do_kopiuj(table, bench, i),
        Operator::WSTAW => do_wstaw(table, bench, i),
        Operator::POBIERZ => do_pobierz(table, bench, i),
        Operator::SCHOWAJ => do_schowaj(table, bench, i),
        Operator::USTAW => do_ustaw(table, bench, i),
        Operator::ZAMIEN => do_zamien(table, bench, i),
        Operator::UMIESC => do_umiesc(table, bench, i),
        Operator::SKRESL => do_skresl(table, bench, i),
        Operator::OMIN => do_omin(table, bench, i),
        Operator::COFNIJ => do_cofnij(table, bench, i),
        _ => unreachable!(),
    }
}
