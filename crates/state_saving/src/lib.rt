// The writer: a state as frames, a line each.
#![tactic(auto)]

ghost use Rattle.std.specs.Prelude.{[], ◌∷◌, ◌≤◌, length};
ghost use Rattle.calls.specs.Filling.{Gives};
ghost use Rattle.layout.specs.Memory.{state_of};
ghost use Rattle.state_frames.specs.Frames.{framed, file};
ghost use Rattle.state_frames.specs.Keeping.{write_of};
ghost use Rattle.state_frames.specs.MemoryFrames.{Saveable};
ghost use Rattle.state_frames.specs.Saved.{file_contents, saved};
ghost use Rattle.state_lines.specs.Kinds.{kind_number};
ghost use Rattle.state_saving.specs.Saving.{longest, Put, Appended, FrameFits, FileFits, string_frames, file_frames, StringsFit, FilesFit, memory_frames, FramesFit};

use calls::{Filled, Question};
use check_memory::Memory;
use language::Machine;
use layout::StatePlaces;
use state_lines::{Kind, Slot};
use tasks::Lent;

// The longest text of a state.
pub const SAVED: usize = 47754;

// Writes the frame of contents, unless they are empty, and tells where the next begins. A place goes in and the next one comes out, here and below: the
// row is a local of the caller and of fixed size, since there is no heap for one that grows.
fn put_some(out: &mut [u8], at: usize, slot: Slot, contents: &[u8]) -> usize
    requires { FrameFits (framed slot.kind slot.index contents.now) at (length out.old) }
    ensures { Appended (framed slot.kind slot.index contents.now ∷ []) at result out.old out.new }
{
    let n = contents.len();
    if n == 0 {
        return at;
    }
    state_lines::put_frame(out, at, slot, contents);
    at + state_lines::line_length(n)
}

// Writes the frame of a file, unless it has no records, and tells where the next begins.
fn put_records(out: &mut [u8], at: usize, index: usize, before: &[u8], after: &[u8]) -> usize
    requires { FileFits index before.now after.now at (length out.old) }
    ensures { Appended (framed file index (file_contents before.now after.now) ∷ []) at result out.old out.new }
{
    let n = before.len() + after.len();
    if n == 0 {
        return at;
    }
    state_lines::put_file(out, at, index, before, after);
    at + state_lines::line_length(2 + n)
}

// Writes the frames of `count` strings, indices from 1 on.
fn put_strings(
    memory: &Memory,
    kind: Kind,
    first: usize,
    count: usize,
    out: &mut [u8],
    from: usize,
) -> usize
    requires { StringsFit memory.now (kind_number kind) first count from (length out.old) }
    ensures { Appended (string_frames memory.now (kind_number kind) first count) from result out.old out.new }
{
    let mut at = from;
    for i in 0..count {
        let v = memory.string(first + i);
        at = put_some(out, at, Slot::of(kind, i + 1), v);
    }
    at
}

// Writes the frames of the files; a file is two strings, so the body is not that of `put_strings`.
fn put_files(memory: &Memory, out: &mut [u8], from: usize) -> usize
    requires { FilesFit memory.now from (length out.old) }
    ensures { Appended (file_frames memory.now) from result out.old out.new }
{
    let mut at = from;
    for i in 0..Machine::FILES {
        let k = StatePlaces::FIRST_FILE + 2 * i;
        let before = memory.string(k);
        let after = memory.string(k + 1);
        at = put_records(out, at, i + 1, before, after);
    }
    at
}

// Writes the frames of a state's cells in their order, and tells how many bytes they take.
fn put_frames(memory: &Memory, out: &mut [u8]) -> usize
    requires { FramesFit memory.now (length out.old) }
    ensures { Appended (memory_frames memory.now) 0 result out.old out.new }
{
    let head = put_some(
        out,
        0,
        Slot::HEAD,
        &memory.cells()[..StatePlaces::COMPONENTS_CELL],
    );
    let expressions = put_strings(memory, Kind::Expression, 0, Machine::EXPRESSIONS, out, head);
    let files = put_files(memory, out, expressions);
    let outputs = put_strings(
        memory,
        Kind::Output,
        StatePlaces::FIRST_OUTPUT,
        Machine::OUTPUTS,
        out,
        files,
    );
    let stack = memory.string(StatePlaces::STACK_STRING);
    put_some(out, outputs, Slot::STACK, stack)
}

// Writes a state at rest, and tells how many bytes it takes.
pub fn put_saved(state: &[u8], out: &mut [u8]) -> usize
    requires { Saveable state.now × (longest ≤ length out.old) }
    ensures { Put (saved (state_of state.now)) result out.old out.new }
{
    let m = &state[..Machine::STATE];
    put_frames(&Memory::new(m), out)
}

// "Write a state as lines of hexadecimal": 62 and 61 first; "An ill-formed state to write, or memory too short, brings 63".
pub fn write_state(lent: Lent, state: &[u8], out: &mut [u8]) -> Filled
    ensures { Gives (write_of lent.entry.table.now (lent.entry.first.now ∷ lent.entry.second.now ∷ []) state.now (length out.old)) result out.old out.new }
{
    let task = check_calls::ask(lent)?;
    if !check_state::is_state(task, state) {
        return Err(Question::State);
    }
    let mut made = [0u8; SAVED];
    let n = put_saved(state, &mut made);
    if out.len() < n {
        return Err(Question::State);
    }
    cells::put(out, 0, &made[..n]);
    Ok(n as u32)
}
