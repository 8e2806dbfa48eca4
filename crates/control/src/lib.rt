// Where a run goes on: the next instruction and the return stack of the state at work.
#![tactic(auto)]

ghost use Rattle.std.specs.Prelude.{◌<◌, suc, length};
ghost use Rattle.language.specs.Limits as limit;
ghost use Rattle.machine.specs.Effects.Go.{on, jump, call, back};
ghost use Rattle.state.specs.Working.{HoldsState};
ghost use Rattle.control.specs.Going.{going, Deep, Callable};

use layout::StatePlaces;
use state::Working;

// How many entries the return stack has.
// The stack is one of the 99 strings, two bytes an entry, as it is at rest: it is packed and unpacked like the others.
pub fn depth(state: &Working) -> usize
    ensures { Deep state.now result }
{
    state.strings.len_of(StatePlaces::STACK_STRING) / 2
}

// Goes on with the following instruction.
pub fn go_on(state: &mut Working)
    requires { suc state.old.next < limit.instructions }
    ensures { HoldsState state.new (going on state.old) }
{
    state.scalars.next += 1;
}

// Goes on with instruction `t`.
pub fn go_to(state: &mut Working, t: usize)
    requires { t < limit.instructions }
    ensures { HoldsState state.new (going (jump t) state.old) }
{
    state.scalars.next = t;
}

// Goes on with instruction `t` and keeps the way back.
pub fn call_to(state: &mut Working, t: usize)
    requires { Callable state.old t }
    ensures { HoldsState state.new (going (call t) state.old) }
{
    let n = state.scalars.next + 1;
    let entry = (n as u16).to_le_bytes();
    state.strings.push_front(StatePlaces::STACK_STRING, &entry);
    state.scalars.next = t;
}

// Goes back to where the last call that is kept came from.
pub fn go_back(state: &mut Working)
    requires { 0 < length state.old.stack }
    ensures { HoldsState state.new (going back state.old) }
{
    let e = state.strings.part_of(StatePlaces::STACK_STRING, 0, 2);
    let t = cells::two_at(e, 0);
    state.strings.drop_front(StatePlaces::STACK_STRING, 2);
    state.scalars.next = t;
}
