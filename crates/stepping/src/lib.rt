// One step: the next instruction is read, carried out, and followed by the one that comes next.
#![tactic(auto)]

ghost use Rattle.std.specs.Prelude.{◌≡◌};
ghost use Rattle.language.specs.Operators.{op_by};
ghost use Rattle.instructions.specs.Questions.{told_by};
ghost use Rattle.perform_jumps.specs.Below.Stepping.{Steppable, Stepped};
ghost use Rattle.perform_jumps.specs.Below.Performing.{leads, Performs};
ghost use Rattle.stepping.specs.Orders.{GoingOn};

use instructions::{Bench, Question, Task};
use language::Operator;
use perform_equality::from_perform_moves;

// Whether an operator is a jump, call or return, or STOP.
// The family is named here as the others are in `perform`; what each of its operators does is matched in `perform_jumps` alone.
fn leading(op: Operator) -> bool
    ensures { result ≡ leads (op_by op) }
{
    matches!(
        op,
        Operator::SKOCZ
            | Operator::WYKONAJ
            | Operator::SKOMI
            | Operator::SKOPL
            | Operator::WYMI
            | Operator::WYPL
            | Operator::SKONA
            | Operator::SKOIN
            | Operator::WYNA
            | Operator::WYIN
            | Operator::WROC
            | Operator::STOP
    )
}

// Carries out instruction `i`, which always goes on to the following one, but for the step to that one.
// Inlined into `step`, its only caller: that is faster by a tenth.
#[inline(always)]
fn perform(task: Task, bench: &mut Bench, op: Operator, i: usize) -> Result<(), Question>
    requires { GoingOn task.table.cells.now task.first.now task.second.now bench.old.state (op_by op) i }
    ensures { Performs task.entry.table.cells.now task.entry.first.now task.entry.second.now bench.old.state (told_by result) bench.new.state }
{
    match op {
        Operator::PRZESLIJ
        | Operator::CZYTAJ
        | Operator::PISZ
        | Operator::USUN
        | Operator::ZBIJ
        | Operator::ROZBIJ
        | Operator::SZUKAJ => from_perform_moves::perform_move(task, bench, op, i),
        Operator::WK
        | Operator::MN
        | Operator::PP
        | Operator::NS
        | Operator::DODAJ
        | Operator::ODEJMIJ
        | Operator::MNOZ
        | Operator::DZIEL
        | Operator::SLOWO
        | Operator::LICZBA => perform_values::perform_value(task.table, bench, op, i),
        Operator::RW | Operator::RZ => perform_equality::perform_equality(task, bench, op, i),
        Operator::KOPIUJ
        | Operator::WSTAW
        | Operator::POBIERZ
        | Operator::SCHOWAJ
        | Operator::USTAW
        | Operator::ZAMIEN
        | Operator::UMIESC
        | Operator::SKRESL
        | Operator::OMIN
        | Operator::COFNIJ => perform_files::perform_file(task.table, bench, op, i),
        _ => unreachable!(),
    }
}

// One step. It tells the question that stops it.
// Inlined into the loop of `running::run_steps`, its only caller: no call, and no registers saved, at each step.
#[inline(always)]
pub fn step(task: Task, bench: &mut Bench) -> Result<(), Question>
    requires { Steppable task.table.cells.now task.first.now task.second.now bench.old.state }
    ensures { Stepped task.entry.table.cells.now task.entry.first.now task.entry.second.now bench.old.state (told_by result) bench.new.state }
{
    let i = bench.state.next_instruction();
    let instruction = task.table.instruction_at(i);
    if leading(instruction.op) {
        return perform_jumps::perform_jump(task.table, &mut bench.state, instruction.op, i);
    }
    perform(task, bench, instruction.op, i)?;
    control::go_on(&mut bench.state);
    Ok(())
}
