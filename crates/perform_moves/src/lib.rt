// Instructions that move components and characters, from the arguments of instruction `i`. Next is left to the caller.
#![tactic(auto)]

ghost use Rattle.language.specs.Operators.{op_by};
ghost use Rattle.language.specs.Program.Op.{PRZESLIJ, CZYTAJ, PISZ, USUN, ZBIJ, ROZBIJ, SZUKAJ};
ghost use Rattle.instructions.specs.Questions.{told_by};
ghost use Rattle.performing.specs.Performing.{Performs};
ghost use Rattle.performing.specs.Operating.{PerformsFor};
ghost use Rattle.performing.specs.Places.{CarryingAt, PerformingAt};
ghost use Rattle.perform_moves.specs.Moving.{Moving};

use instructions::{Bench, Question, Task};
use language::Operator;
use splitting::{from_joining, from_readings};
use table::Table;

// PRZESLIJ.
fn send(table: Table, bench: &mut Bench, i: usize) -> Result<(), Question>
    requires { CarryingAt table.cells.now bench.old.state PRZESLIJ i }
    ensures { PerformsFor table.entry.cells.now bench.old.state (told_by result) bench.new.state }
{
    let source = decoding::source_of(table.first(i));
    let target = decoding::target_of(table.second(i));
    moves::przeslij(table, bench, source, target, table.third(i))
}

// CZYTAJ.
fn read(task: Task, bench: &mut Bench, i: usize) -> Result<(), Question>
    requires { PerformingAt task.table.cells.now task.first.now task.second.now bench.old.state CZYTAJ i }
    ensures { Performs task.entry.table.cells.now task.entry.first.now task.entry.second.now bench.old.state (told_by result) bench.new.state }
{
    let index = decoding::index_of(task.table.first(i));
    let target = decoding::target_of(task.table.second(i));
    from_readings::czytaj(task, bench, index, target, task.table.third(i))
}

// PISZ.
fn print(table: Table, bench: &mut Bench, i: usize) -> Result<(), Question>
    requires { CarryingAt table.cells.now bench.old.state PISZ i }
    ensures { PerformsFor table.entry.cells.now bench.old.state (told_by result) bench.new.state }
{
    let source = decoding::source_of(table.first(i));
    let j = decoding::index_of(table.second(i));
    printing::pisz(table, bench, source, j, table.third(i))
}

// USUN, of an expression or an input.
fn remove(task: Task, bench: &mut Bench, i: usize) -> Result<(), Question>
    requires { PerformingAt task.table.cells.now task.first.now task.second.now bench.old.state USUN i }
    ensures { Performs task.entry.table.cells.now task.entry.first.now task.entry.second.now bench.old.state (told_by result) bench.new.state }
{
    let x = task.table.first(i);
    let index = decoding::index_of(x);
    match decoding::variable_of(x) {
        decoding::Variable::Input => from_readings::usun_input(
            task,
            bench,
            index,
            task.table.second(i),
        ),
        decoding::Variable::Expression => moves::usun(
            task.table,
            bench,
            index,
            task.table.second(i),
        ),
        _ => unreachable!(),
    }
}

// ZBIJ.
fn join(table: Table, bench: &mut Bench, i: usize) -> Result<(), Question>
    requires { CarryingAt table.cells.now bench.old.state ZBIJ i }
    ensures { PerformsFor table.entry.cells.now bench.old.state (told_by result) bench.new.state }
{
    let source = decoding::source_of(table.first(i));
    from_joining::zbij(table, bench, source, table.second(i))
}

// ROZBIJ.
fn split(table: Table, bench: &mut Bench, i: usize) -> Result<(), Question>
    requires { CarryingAt table.cells.now bench.old.state ROZBIJ i }
    ensures { PerformsFor table.entry.cells.now bench.old.state (told_by result) bench.new.state }
{
    let source = decoding::source_of(table.first(i));
    splitting::rozbij(table, bench, source, table.second(i))
}

// SZUKAJ.
fn seek(table: Table, bench: &mut Bench, i: usize) -> Result<(), Question>
    requires { CarryingAt table.cells.now bench.old.state SZUKAJ i }
    ensures { PerformsFor table.entry.cells.now bench.old.state (told_by result) bench.new.state }
{
    let source = decoding::source_of(table.first(i));
    let switch = decoding::switch_of(table.second(i));
    switches::szukaj(table, &mut bench.state, source, switch)
}

#[tactic(auto, using(crate::proofs::Operands::for_inputs))]
pub fn perform_move(task: Task, bench: &mut Bench, op: Operator, i: usize) -> Result<(), Question>
    requires { Moving task.table.cells.now task.first.now task.second.now bench.old.state (op_by op) i }
    ensures { Performs task.entry.table.cells.now task.entry.first.now task.entry.second.now bench.old.state (told_by result) bench.new.state }
{
    match op {
        Operator::PRZESLIJ => send(task.table, bench, i),
        Operator::CZYTAJ => read(task, bench, i),
        Operator::PISZ => print(task.table, bench, i),
        Operator::USUN => remove(task, bench, i),
        Operator::ZBIJ => join(task.table, bench, i),
        Operator::ROZBIJ => split(task.table, bench, i),
        Operator::SZUKAJ => seek(task.table, bench, i),
        _ => unreachable!(),
    }
}
