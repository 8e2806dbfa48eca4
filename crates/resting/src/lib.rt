// Between the state at rest in lent memory and the state at work: `open` before a run, `write` behind it.
#![tactic(auto)]

ghost use Rattle.std.specs.Prelude.{◌≡◌, ◌≤◌, ◌++◌, length, take, drop};
ghost use Rattle.layout.specs.Cells.{three};
ghost use Rattle.layout.specs.Memory.{state_of, threes_in, written};
ghost use Rattle.layout.specs.Strings.{string_cells};
ghost use Rattle.lists.specs.Lists.{each};
ghost use Rattle.state.specs.Working.{HoldsState, row_of};
ghost use Rattle.resting.specs.Resting.{Openable, ScalarsReadable, Numbers};
ghost use Rattle.language.specs.Limits as limit;
ghost use Rattle.layout.specs.Places.{scalars_count, first_length};

use language::Machine;
use layout::StatePlaces;
use state::{Scalars, Working};
use strings::Strings;

// Reads the scalars, three cells each.
fn read_scalars(state: &[u8]) -> Scalars
    requires { ScalarsReadable state.now }
    ensures { row_of result ≡ threes_in scalars_count state.now }
{
    let mut row = [0; StatePlaces::SCALARS_COUNT];
    for (k, n) in row.iter_mut().enumerate() {
        *n = cells::three_at(state, 3 * k);
    }
    Scalars::from_row(&row)
}

// Writes them.
fn write_scalars(scalars: &Scalars, state: &mut [u8])
    requires { Numbers (row_of scalars.now) (length state.old) }
    ensures { state.new ≡ each three (row_of scalars.now) ++ drop first_length state.old }
{
    for (k, n) in scalars.row().iter().enumerate() {
        cells::put_three(state, 3 * k, *n);
    }
}

// Lays a state at rest out for work.
pub fn open(working: &mut Working, state: &[u8])
    requires { Openable state.now }
    ensures { HoldsState working.new (state_of state.now) }
{
    working.scalars = read_scalars(state);
    working
        .strings
        .unpack(&state[StatePlaces::FIRST_LENGTH..Machine::STATE]);
}

// Writes the strings behind the scalars.
fn write_strings(strings: &Strings, state: &mut [u8])
    requires { limit.state ≤ length state.old }
    ensures { state.new ≡ take first_length state.old ++ (string_cells strings.now ++ drop limit.state state.old) }
{
    strings.pack(&mut state[StatePlaces::FIRST_LENGTH..Machine::STATE]);
}

// Writes the state at work to lent memory.
pub fn write(working: &Working, state: &mut [u8])
    requires { limit.state ≤ length state.old }
    ensures { state.new ≡ written working.now state.old }
{
    write_scalars(&working.scalars, state);
    write_strings(&working.strings, state);
}
