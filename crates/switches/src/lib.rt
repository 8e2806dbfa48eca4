// Instructions with a switch: jumps and calls by a word or a number, and SZUKAJ.
#![tactic(auto)]

ghost use Rattle.std.specs.Prelude.{◌<◌, suc};
ghost use Rattle.language.specs.Limits as limit;
ghost use Rattle.language.specs.Program.Arg.{nothing, switch as by-switch};
ghost use Rattle.language.specs.Program.Op.{SZUKAJ};
ghost use Rattle.layout.specs.Table.{program_of};
ghost use Rattle.machine.specs.Changes.{used};
ghost use Rattle.machine.specs.Effects.{row};
ghost use Rattle.machine.specs.Effects.Go.{on};
ghost use Rattle.state.specs.Working.{HoldsState, on_store, nth, reading};
ghost use Rattle.control.specs.Going.{going};
ghost use Rattle.instructions.specs.Questions.{told_by};
ghost use Rattle.instructions.specs.Does.{Goes, DoesIn, GoesIn};
ghost use Rattle.jumps.specs.Jumps.{going_by};
ghost use Rattle.switches.specs.Switches.{word_op, number_op, entry_row, Fronted, Entered, EntryGo, Looks, Switches, FindsEntry, NumbersEntry, missing, Goal};

use components::{Amount, Kind, ZERO};
use instructions::{Question, Source};
use jumps::Way;
use state::Working;
use table::Table;

// The code of 1, the number of the first entry.
const FIRST: usize = ZERO + 1;

// Uses the component in front of an expression.
fn use_front(state: &mut Working, source: Source)
    requires { Fronted state.old source.i }
    ensures { HoldsState state.new (on_store (used (nth (reading source.removes) source.i)) state.old) }
{
    let x = state.expr_bytes(source.i);
    let first = Amount::of_first(x);
    state.past_parts(source, first);
}

// The first entry of a switch that is met by the word in front of expression `i`.
fn find(table: Table, state: &Working, i: usize, switch: usize) -> Result<Option<usize>, Question>
    requires { Looks table.cells.now i switch }
    ensures { FindsEntry table.entry.cells.now switch state.now.store i result }
{
    let x = instructions::front_of(state, i, Kind::Word)?;
    let w = components::chars_of(x);
    let first = table.switch_first(switch);
    let count = table.switch_count(switch);
    Ok(table.find_entry(first, count, w))
}

// The entry of a switch by the number in front of expression `i`.
fn entry_by(
    table: Table,
    state: &Working,
    i: usize,
    switch: usize,
) -> Result<Option<usize>, Question>
    requires { Looks table.cells.now i switch }
    ensures { NumbersEntry table.entry.cells.now switch state.now.store i result }
{
    let x = instructions::front_of(state, i, Kind::Number)?;
    let v = components::number_of(x);
    let Some(j) = v.checked_sub(FIRST) else {
        return Ok(None);
    };
    Ok((j < table.switch_count(switch)).then_some(j))
}

// The instruction that entry `j` of a switch leads to.
fn goal(table: Table, switch: usize, j: usize) -> usize
    requires { Entered table.cells.now switch j }
    ensures { Goal table.entry.cells.now switch j result }
{
    let e = table.switch_first(switch) + j;
    table.target(table.entry_label(e))
}

// Goes by entry `j`.
fn go_by(
    table: Table,
    state: &mut Working,
    source: Source,
    switch: usize,
    j: usize,
    way: Way,
) -> Result<(), Question>
    requires { EntryGo table.cells.now state.old source.i switch j }
    ensures { Goes state.old (told_by result) state.new (entry_row (going_by way) table.entry.cells.now switch j state.old.store source.removes source.i) }
{
    state.stands();
    jumps::lead(state, way, goal(table, switch, j))?;
    use_front(state, source);
    Ok(())
}

// Goes on where no entry is met; a call turns H minus.
fn go_past(state: &mut Working, way: Way)
    requires { suc state.old.next < limit.instructions }
    ensures { HoldsState state.new (on_store (missing way) (going on state.old)) }
{
    match way {
        Way::Jump => control::go_on(state),
        Way::Call => {
            control::go_on(state);
            state.set_plus(false);
        }
    }
}

// SKONA and WYNA.
pub fn by_word(
    table: Table,
    state: &mut Working,
    source: Source,
    switch: usize,
    way: Way,
) -> Result<(), Question>
    requires { Switches table.cells.now state.old source.i switch }
    ensures { GoesIn state.old (told_by result) state.new (λ ins. row (program_of table.entry.cells.now) ins state.old.store (nth (reading source.removes) source.i) (by-switch switch) nothing (word_op way)) }
{
    state.stands();
    let met = find(table, state, source.i, switch)?;
    match met {
        Some(j) => go_by(table, state, source, switch, j, way),
        None => {
            go_past(state, way);
            Ok(())
        }
    }
}

// SKOIN and WYIN.
// Not one function with `by_word`: what is done without an entry differs, and each has a row of its own.
pub fn by_number(
    table: Table,
    state: &mut Working,
    source: Source,
    switch: usize,
    way: Way,
) -> Result<(), Question>
    requires { Switches table.cells.now state.old source.i switch }
    ensures { GoesIn state.old (told_by result) state.new (λ ins. row (program_of table.entry.cells.now) ins state.old.store (nth (reading source.removes) source.i) (by-switch switch) nothing (number_op way)) }
{
    state.stands();
    let met = entry_by(table, state, source.i, switch)?;
    match met {
        Some(j) => go_by(table, state, source, switch, j, way),
        None => Err(Question::Outside),
    }
}

pub fn szukaj(
    table: Table,
    state: &mut Working,
    source: Source,
    switch: usize,
) -> Result<(), Question>
    requires { Looks table.cells.now source.i switch }
    ensures { DoesIn state.old (told_by result) state.new (λ ins. row (program_of table.entry.cells.now) ins state.old.store (nth (reading source.removes) source.i) (by-switch switch) nothing SZUKAJ) }
{
    state.stands();
    let met = find(table, state, source.i, switch)?;
    match met {
        Some(_) => use_front(state, source),
        None => state.set_plus(false),
    }
    Ok(())
}
