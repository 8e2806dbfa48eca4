// A state at rest in lent memory, looked at: its first output and its next instruction.
#![tactic(auto)]

ghost use Rattle.std.specs.Prelude.{◌≡◌};
ghost use Rattle.layout.specs.Memory.{state_of};
ghost use Rattle.layout.specs.Strings.{strings_in};
ghost use Rattle.cells.specs.Cells.{Number};
ghost use Rattle.gaps.specs.Pool.{string};
ghost use Rattle.viewing.specs.Viewing.{Rests, Stringed, Shows};

use language::Machine;
use layout::StatePlaces;

// String `i`.
fn string_at<'a>(strings: &'a [u8], i: usize) -> &'a [u8]
    requires { Stringed strings.now i }
    ensures { result.now ≡ string i (strings_in strings.now) }
{
    let mut from = StatePlaces::LENGTHS_BYTES;
    for j in 0..i {
        from += cells::two_at(strings, 2 * j);
    }
    &strings[from..from + cells::two_at(strings, 2 * i)]
}

// Q1.
pub fn output<'a>(state: &'a [u8]) -> &'a [u8]
    requires { Rests state.now }
    ensures { Shows state.now result.now }
{
    string_at(
        &state[StatePlaces::FIRST_LENGTH..Machine::STATE],
        StatePlaces::FIRST_OUTPUT,
    )
}

// The place of the next instruction.
pub fn next(state: &[u8]) -> usize
    requires { Rests state.now }
    ensures { Number (state_of state.now).next 16777216 result }
{
    cells::three_at(state, StatePlaces::NEXT_CELL)
}
