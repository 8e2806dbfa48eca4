// The state that start makes: "H plus, all else empty".
#![tactic(auto)]

ghost use Rattle.std.specs.Prelude.{◌≡◌, ◌≤◌, length};
ghost use Rattle.machine.specs.WellFormed.{started};
ghost use Rattle.layout.specs.Memory.{written};
ghost use Rattle.language.specs.Limits as limit;

use language::Machine;
use layout::StatePlaces;

// Writes it to lent memory: of its cells only the first, H, is not 0. `clear` has as its promise what `fill` leaves to prove cell by cell.
pub fn start(state: &mut [u8])
    requires { limit.state ≤ length state.old }
    ensures { state.new ≡ written started state.old }
{
    cells::clear(state, 1, Machine::STATE - 1);
    state[StatePlaces::PLUS_CELL] = 1;
}
