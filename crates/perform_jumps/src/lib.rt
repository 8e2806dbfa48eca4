// Jumps, calls, the return and STOP, from the arguments of instruction `i`.
#![tactic(auto)]

ghost use Rattle.language.specs.Operators.{op_by};
ghost use Rattle.language.specs.Program.Op.{SKOCZ, WYKONAJ};
ghost use Rattle.instructions.specs.Questions.{told_by};
ghost use Rattle.switches.specs.Switches.{word_op, number_op};
ghost use Rattle.performing.specs.Operating.{LeadsFor};
ghost use Rattle.performing.specs.Places.{CarryingAt};
ghost use Rattle.perform_jumps.specs.Jumping.{sign_op, Jumping};

use instructions::Question;
use jumps::Way;
use language::Operator;
use state::Working;
use table::Table;

// SKOCZ.
fn jump(table: Table, state: &mut Working, i: usize) -> Result<(), Question>
    requires { CarryingAt table.cells.now state.old SKOCZ i }
    ensures { LeadsFor table.entry.cells.now state.old (told_by result) state.new }
{
    let label = decoding::label_of(table.first(i));
    jumps::skocz(table, state, label)
}

// WYKONAJ.
fn call(table: Table, state: &mut Working, i: usize) -> Result<(), Question>
    requires { CarryingAt table.cells.now state.old WYKONAJ i }
    ensures { LeadsFor table.entry.cells.now state.old (told_by result) state.new }
{
    let label = decoding::label_of(table.first(i));
    jumps::wykonaj(table, state, label)
}

// SKOPL or WYPL where `plus`, and otherwise SKOMI or WYMI.
fn by_sign(
    table: Table,
    state: &mut Working,
    i: usize,
    way: Way,
    plus: bool,
) -> Result<(), Question>
    requires { CarryingAt table.cells.now state.old (sign_op way plus) i }
    ensures { LeadsFor table.entry.cells.now state.old (told_by result) state.new }
{
    let label = decoding::label_of(table.first(i));
    let taken = state.is_plus() == plus;
    jumps::lead_when(table, state, way, taken, label)
}

// SKONA and WYNA.
fn by_word(table: Table, state: &mut Working, i: usize, way: Way) -> Result<(), Question>
    requires { CarryingAt table.cells.now state.old (word_op way) i }
    ensures { LeadsFor table.entry.cells.now state.old (told_by result) state.new }
{
    let source = decoding::source_of(table.first(i));
    let switch = decoding::switch_of(table.second(i));
    switches::by_word(table, state, source, switch, way)
}

// SKOIN and WYIN. As in `switches`, not one function with `by_word`.
fn by_number(table: Table, state: &mut Working, i: usize, way: Way) -> Result<(), Question>
    requires { CarryingAt table.cells.now state.old (number_op way) i }
    ensures { LeadsFor table.entry.cells.now state.old (told_by result) state.new }
{
    let source = decoding::source_of(table.first(i));
    let switch = decoding::switch_of(table.second(i));
    switches::by_number(table, state, source, switch, way)
}

// An instruction that does not always go on to the following one.
pub fn perform_jump(
    table: Table,
    state: &mut Working,
    op: Operator,
    i: usize,
) -> Result<(), Question>
    requires { Jumping table.cells.now state.old (op_by op) i }
    ensures { LeadsFor table.entry.cells.now state.old (told_by result) state.new }
{
    match op {
        Operator::SKOCZ => jump(table, state, i),
        Operator::WYKONAJ => call(table, state, i),
        Operator::SKOMI => by_sign(table, state, i, Way::Jump, false),
        Operator::SKOPL => by_sign(table, state, i, Way::Jump, true),
        Operator::WYMI => by_sign(table, state, i, Way::Call, false),
        Operator::WYPL => by_sign(table, state, i, Way::Call, true),
        Operator::SKONA => by_word(table, state, i, Way::Jump),
        Operator::SKOIN => by_number(table, state, i, Way::Jump),
        Operator::WYNA => by_word(table, state, i, Way::Call),
        Operator::WYIN => by_number(table, state, i, Way::Call),
        Operator::WROC => jumps::wroc(state),
        Operator::STOP => jumps::stop(state),
        _ => unreachable!(),
    }
}
