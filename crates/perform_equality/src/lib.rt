// The relations of equality from the arguments of instruction `i`: RW and RZ.
#![tactic(auto)]

ghost use Rattle.std.specs.Prelude.{◌≡◌};
ghost use Rattle.decoding.specs.Operands.{Lettered};
ghost use Rattle.language.specs.Operators.{op_by};
ghost use Rattle.language.specs.Program.Op.{RW, RZ};
ghost use Rattle.instructions.specs.Questions.{told_by};
ghost use Rattle.performing.specs.Performing.{Performs};
ghost use Rattle.performing.specs.Operating.{PerformsFor};
ghost use Rattle.performing.specs.Places.{CarryingAt, PerformingAt};
ghost use Rattle.perform_equality.specs.Equating.{any_letter, IsAny, RelatingExpression, Equating};

use instructions::{Bench, Question, Task};
use language::Operator;
use table::Table;

// Whether a letter, an argument stands for any component (T).
fn any_letter(l: table::Letter) -> bool
    ensures { result ≡ any_letter l }
{
    matches!(l, table::Letter::T)
}

fn is_any(a: table::Argument) -> bool
    requires { Lettered a }
    ensures { IsAny a result }
{
    match a {
        table::Argument::Indexed(l, _) => any_letter(l),
        _ => unreachable!(),
    }
}

// RW of an expression; x is the first argument.
fn relate_expression(
    table: Table,
    bench: &mut Bench,
    i: usize,
    x: table::Argument,
) -> Result<(), Question>
    requires { RelatingExpression table.cells.now bench.old.state i x }
    ensures { PerformsFor table.entry.cells.now bench.old.state (told_by result) bench.new.state }
{
    if is_any(x) {
        let index = decoding::index_of(x);
        return equality::rw_any(table, bench, index, table.second(i));
    }
    let source = decoding::source_of(x);
    equality::rw_one(table, bench, source, table.second(i))
}

// RW, of an expression or an input.
fn relate(task: Task, bench: &mut Bench, i: usize) -> Result<(), Question>
    requires { PerformingAt task.table.cells.now task.first.now task.second.now bench.old.state RW i }
    ensures { Performs task.entry.table.cells.now task.entry.first.now task.entry.second.now bench.old.state (told_by result) bench.new.state }
{
    let x = task.table.first(i);
    let index = decoding::index_of(x);
    match decoding::variable_of(x) {
        decoding::Variable::Input => input_equality::rw_input(
            task,
            bench,
            index,
            task.table.second(i),
        ),
        decoding::Variable::Expression => relate_expression(task.table, bench, i, x),
        _ => unreachable!(),
    }
}

// RZ.
fn relate_record(table: Table, bench: &mut Bench, i: usize) -> Result<(), Question>
    requires { CarryingAt table.cells.now bench.old.state RZ i }
    ensures { PerformsFor table.entry.cells.now bench.old.state (told_by result) bench.new.state }
{
    let index = decoding::index_of(table.first(i));
    record_equality::rz(table, bench, index, table.second(i))
}

pub fn perform_equality(
    task: Task,
    bench: &mut Bench,
    op: Operator,
    i: usize,
) -> Result<(), Question>
    requires { Equating task.table.cells.now task.first.now task.second.now bench.old.state (op_by op) i }
    ensures { Performs task.entry.table.cells.now task.entry.first.now task.entry.second.now bench.old.state (told_by result) bench.new.state }
{
    match op {
        Operator::RW => relate(task, bench, i),
        Operator::RZ => relate_record(task.table, bench, i),
        _ => unreachable!(),
    }
}

// Of `perform_moves`, passed on to the crates above.
pub mod from_perform_moves {
    pub use perform_moves::perform_move;
}
