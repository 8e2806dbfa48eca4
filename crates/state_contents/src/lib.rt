// The contents of frames, and a state at rest laid out from them.
#![tactic(auto)]

ghost use Rattle.std.specs.Prelude.{◌≡◌, [], ◌≤◌, ◌<◌, T, length, get_or, replicate};
ghost use Rattle.language.specs.Limits as limit;
ghost use Rattle.layout.specs.Places.{strings_count};
ghost use Rattle.state_frames.specs.Frames.{head, file, sound_text, frames_in};
ghost use Rattle.state_frames.specs.Saved.{contents_at};
ghost use Rattle.state_contents.specs.Contents.{Lined, Tells, Added, Gathered, Standing, half_of, strings_of, Fitting, Puttable, PutOne, StringsLaid, HeadLaid, Laid};

use language::Machine;
use layout::StatePlaces;
use state_lines::{Kind, Slot};
use std::ops::Range;

// A text that question 68 lets pass.
#[derive(Clone, Copy, Debug, PartialEq, Eq)]
struct Frames<'a> {
    text: &'a [u8],
    ghost sound: { T (sound_text text.now) },
}

// Whether a line is that of the frame asked for.
fn is_of(line: &[u8], slot: Slot) -> bool
    requires { Lined line.now }
    ensures { Tells line.now slot.kind slot.index result }
{
    let kind = hexadecimal::byte_at(line, 0).unwrap();
    let index = hexadecimal::byte_at(line, 2).unwrap();
    let index = usize::from(index);
    slot == Slot { kind, index }
}

// Copies the contents of a line behind `n` bytes of the row if it is the one asked for, and tells how many bytes there are then: none where the row has
// no room. The promise speaks of the whole row; of its rest each caller would put it together again.
fn gather(line: &[u8], slot: Slot, row: &mut [u8], n: usize) -> Option<usize>
    requires { Lined line.now × (n ≤ length row.old) }
    ensures { Added line.now slot.kind slot.index n row.old result row.new }
{
    if !is_of(line, slot) {
        return Some(n);
    }
    let size = state_lines::contents_length(line);
    if row.len() < n + size {
        return None;
    }
    let digits = &line[state_lines::FRONT..state_lines::FRONT + 2 * size];
    hexadecimal::get_bytes(row, n, digits)?;
    Some(n + size)
}

// The contents of the frames asked for, end to end in front in the row: how many bytes they are; none where the row has no room. Each line tells how
// long it is, so no method of std walks so.
fn contents(frames: Frames, slot: Slot, row: &mut [u8; Machine::STATE]) -> Option<usize>
    ensures { Gathered (contents_at slot.kind slot.index (frames_in frames.entry.text.now)) result row.new }
{
    let mut n = 0;
    let mut rest = frames.text;
    while !rest.is_empty() {
        let size = state_lines::contents_length(rest);
        let (line, others) = rest.split_at(state_lines::line_length(size));
        n = gather(line, slot, row, n)?;
        rest = others;
    }
    Some(n)
}

// A string that is the whole contents.
fn whole(frames: Frames, slot: Slot, row: &mut [u8; Machine::STATE]) -> Range<usize>
    ensures { Standing (length (contents_at slot.kind slot.index (frames_in frames.entry.text.now)) ≤ length row.new) (contents_at slot.kind slot.index (frames_in frames.entry.text.now)) row.new result.start result.end }
{
    0..contents(frames, slot, row).unwrap_or(0)
}

// The records of a file before its pointer, or those after it: behind the two bytes that tell how many bytes come before it. The definition takes a
// Bool for `after`, so an enum would add a mapping.
fn half(frames: Frames, index: usize, after: bool, row: &mut [u8; Machine::STATE]) -> Range<usize>
    ensures { Standing (length (contents_at file index (frames_in frames.entry.text.now)) ≤ length row.new) (half_of after (contents_at file index (frames_in frames.entry.text.now))) row.new result.start result.end }
{
    let Some(n) = contents(frames, Slot::of(Kind::File, index), row) else {
        return 0..0;
    };
    if n < 2 {
        return 0..0;
    }
    let middle = 2 + cells::two_at(row, 0);
    if after {
        if n < middle {
            return n..n;
        }
        return middle..n;
    }
    if n < middle {
        return 2..n;
    }
    2..middle
}

// String `j` of a state.
fn string(frames: Frames, j: usize, row: &mut [u8; Machine::STATE]) -> Range<usize>
    requires { j < strings_count }
    ensures { Standing (Fitting frames.entry.text.now) (get_or (strings_of frames.entry.text.now) j []) row.new result.start result.end }
{
    if j < StatePlaces::FIRST_FILE {
        return whole(frames, Slot::of(Kind::Expression, j + 1), row);
    }
    if j < StatePlaces::STACK_STRING {
        let i = j - StatePlaces::FIRST_FILE;
        return half(frames, i / 2 + 1, i % 2 == 1, row);
    }
    if j == StatePlaces::STACK_STRING {
        return whole(frames, Slot::STACK, row);
    }
    let slot = Slot::of(Kind::Output, j - StatePlaces::STACK_STRING);
    whole(frames, slot, row)
}

// Writes string `j` with its length, if there is room, and tells where the next begins.
fn put_string(m: &mut [u8], j: usize, at: usize, bytes: &[u8]) -> usize
    requires { Puttable (length m.old) j at }
    ensures { PutOne m.old j at bytes.now result m.new }
{
    let n = bytes.len();
    if Machine::STATE < at + n {
        return at;
    }
    cells::put_two(m, StatePlaces::FIRST_LENGTH + 2 * j, n);
    cells::put(m, at, bytes);
    at + n
}

// Lays the strings out, end to end.
fn lay_strings(frames: Frames, m: &mut [u8], row: &mut [u8; Machine::STATE])
    requires { length m.old ≡ limit.state }
    ensures { StringsLaid (strings_of frames.entry.text.now) m.old m.new }
{
    let mut at = StatePlaces::FIRST_BYTE;
    for j in 0..StatePlaces::STRINGS_COUNT {
        let s = string(frames, j, row);
        at = put_string(m, j, at, &row[s]);
    }
}

// Lays the head's numbers out.
fn lay_head(frames: Frames, m: &mut [u8], row: &mut [u8; Machine::STATE])
    requires { length m.old ≡ limit.state }
    ensures { HeadLaid (contents_at head 0 (frames_in frames.entry.text.now)) m.old m.new }
{
    if contents(frames, Slot::HEAD, row) == Some(StatePlaces::COMPONENTS_CELL) {
        cells::put(m, 0, &row[..StatePlaces::COMPONENTS_CELL]);
    }
}

// A state at rest from the frames of a text, all but its totals.
pub fn lay_state(text: &[u8], m: &mut [u8])
    requires { T (sound_text text.now) × (m.old ≡ replicate limit.state 0) }
    ensures { Laid text.now m.new }
{
    let mut row = [0u8; Machine::STATE];
    let frames = Frames { text };
    lay_head(frames, m, &mut row);
    lay_strings(frames, m, &mut row);
}
