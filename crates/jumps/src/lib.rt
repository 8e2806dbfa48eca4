// Jumps and calls by a label, the return, and STOP.
#![tactic(auto)]

ghost use Rattle.std.specs.Prelude.{◌<◌, suc};
ghost use Rattle.language.specs.Limits as limit;
ghost use Rattle.language.specs.Program.Arg.{nothing, label as by-label};
ghost use Rattle.language.specs.Program.Op.{SKOCZ, WYKONAJ, WROC, STOP};
ghost use Rattle.layout.specs.Table.{program_of};
ghost use Rattle.machine.specs.Effects.{row, jump_if};
ghost use Rattle.machine.specs.Effects.Go.{call};
ghost use Rattle.instructions.specs.Questions.{told_by};
ghost use Rattle.instructions.specs.Does.{GoesFor, GoesIn};
ghost use Rattle.table.specs.Good.{GoodLabel};
ghost use Rattle.jumps.specs.Jumps.{Turns, Led, led_to, going_by};

use instructions::Question;
use language::Machine;
use state::Working;
use table::Table;

// How an instruction goes to a label or to an entry of a switch.
#[derive(Clone, Copy, PartialEq, Eq, Debug)]
pub enum Way {
    Jump,
    Call,
}

// Calls instruction `t`, where the return stack has room.
fn call(state: &mut Working, t: usize) -> Result<(), Question>
    requires following { suc state.old.next < limit.instructions }
    requires below { t < limit.instructions }
    ensures { Led state.old (call t) (told_by result) state.new }
{
    if control::depth(state) == Machine::STACK {
        return Err(Question::Room);
    }
    control::call_to(state, t);
    Ok(())
}

// Jumps to instruction `t`, or calls it.
pub fn lead(state: &mut Working, way: Way, t: usize) -> Result<(), Question>
    requires following { suc state.old.next < limit.instructions }
    requires below { t < limit.instructions }
    ensures { Led state.old (going_by way t) (told_by result) state.new }
{
    match way {
        Way::Jump => {
            control::go_to(state, t);
            Ok(())
        }
        Way::Call => call(state, t),
    }
}

// Goes to a label where `taken` says so and otherwise on, and leaves H plus. SKOMI, SKOPL, WYMI and WYPL are this by H.
pub fn lead_when(
    table: Table,
    state: &mut Working,
    way: Way,
    taken: bool,
    label: usize,
) -> Result<(), Question>
    requires { Turns table.cells.now state.old label }
    ensures { GoesIn state.old (told_by result) state.new (λ ins. jump_if (program_of table.entry.cells.now) ins state.old.store taken (going_by way (led_to table.entry.cells.now label))) }
{
    state.stands();
    if !taken {
        control::go_on(state);
        state.set_plus(true);
        return Ok(());
    }
    lead(state, way, table.target(label))?;
    state.set_plus(true);
    Ok(())
}

pub fn skocz(table: Table, state: &mut Working, label: usize) -> Result<(), Question>
    requires { GoodLabel table.cells.now label }
    ensures { GoesIn state.old (told_by result) state.new (λ ins. row (program_of table.entry.cells.now) ins state.old.store (by-label label) nothing nothing SKOCZ) }
{
    control::go_to(state, table.target(label));
    Ok(())
}

pub fn wykonaj(table: Table, state: &mut Working, label: usize) -> Result<(), Question>
    requires { Turns table.cells.now state.old label }
    ensures { GoesIn state.old (told_by result) state.new (λ ins. row (program_of table.entry.cells.now) ins state.old.store (by-label label) nothing nothing WYKONAJ) }
{
    state.stands();
    call(state, table.target(label))
}

pub fn wroc(state: &mut Working) -> Result<(), Question>
    ensures { GoesFor state.old (told_by result) state.new (λ g ins. row g ins state.old.store nothing nothing nothing WROC) }
{
    if control::depth(state) == 0 {
        return Err(Question::NoCall);
    }
    control::go_back(state);
    Ok(())
}

pub fn stop(state: &Working) -> Result<(), Question>
    ensures { GoesFor state.now (told_by result) state.now (λ g ins. row g ins state.now.store nothing nothing nothing STOP) }
{
    state.stands();
    Err(Question::Ended)
}
