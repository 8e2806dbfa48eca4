// The reader: a state at rest from lines of frames.
#![tactic(auto)]

ghost use Rattle.std.specs.Prelude.{◌≡◌, [], ◌∷◌, length};
ghost use Rattle.language.specs.Limits as limit;
ghost use Rattle.layout.specs.Memory.{state_of};
ghost use Rattle.lists.specs.Lists.{bytes_equal};
ghost use Rattle.state_frames.specs.Keeping.{read_of, Restores};
ghost use Rattle.state_frames.specs.MemoryFrames.{Saveable};
ghost use Rattle.state_frames.specs.Saved.{saved};
ghost use Rattle.state_restoring.specs.Restoring.{Summed, Totalled, Restorable, Restored};

use calls::Question;
use check_memory::{Memory, Sums};
use language::Machine;
use layout::StatePlaces;
use state_saving::SAVED;
use tasks::{Lent, Task};

// The totals of a state whose other cells are laid out, if its strings have room and are sound.
fn totals_of(m: &[u8]) -> Option<Sums>
    requires { length m.now ≡ limit.state }
    ensures { Summed m.now result }
{
    let memory = Memory::laid(m)?;
    if !memory.is_sound() {
        return None;
    }
    Some(memory.totals())
}

// Fills them in.
fn fill_totals(m: &mut [u8])
    requires { length m.old ≡ limit.state }
    ensures { Totalled m.old m.new }
{
    let Some(t) = totals_of(m) else {
        return;
    };
    cells::put_three(m, StatePlaces::COMPONENTS_CELL, t.parts);
    cells::put_three(m, StatePlaces::CHARACTERS_CELL, t.chars);
    cells::put_three(m, StatePlaces::RECORDS_CELL, t.records);
}

// Whether a state, written, is this text.
fn is_saved(state: &[u8], text: &[u8]) -> bool
    requires { Saveable state.now }
    ensures { result ≡ bytes_equal (saved (state_of state.now)) text.now }
{
    let mut out = [0u8; SAVED];
    let n = state_saving::put_saved(state, &mut out);
    &out[..n] == text
}

// Question 69 of a text that question 68 lets pass: `m`, all zeros, becomes the state that the frames give. It is their state if it is well formed and
// they are its frames.
fn restore(task: Task, text: &[u8], m: &mut [u8]) -> bool
    requires { Restorable task.table.cells.now task.first.now task.second.now text.now m.old }
    ensures { Restored task.entry.table.cells.now task.entry.first.now task.entry.second.now text.now result m.new }
{
    if SAVED < text.len() {
        return false;
    }
    state_contents::lay_state(text, m);
    fill_totals(m);
    if !check_state::is_state(task, m) {
        return false;
    }
    is_saved(m, text)
}

// "is every line hexadecimal with its length and sum right? 68. Are the frames in order, once each, the head there, none empty, and the state well
// formed? 69. A refused call changes nothing."
pub fn read_state(lent: Lent, text: &[u8], state: &mut [u8]) -> Result<(), Question>
    ensures { Restores (read_of lent.entry.table.now (lent.entry.first.now ∷ lent.entry.second.now ∷ []) text.now state.old) result state.new }
{
    let task = check_calls::ask(lent)?;
    if state.len() < Machine::STATE {
        return Err(Question::State);
    }
    if !state_lines::is_sound_text(text) {
        return Err(Question::Lines);
    }
    let mut m = [0u8; Machine::STATE];
    if !restore(task, text, &mut m) {
        return Err(Question::Frames);
    }
    cells::put(state, 0, &m);
    Ok(())
}

// Of `state_saving`, passed on to the crates above.
pub mod from_state_saving {
    pub use state_saving::write_state;
}
