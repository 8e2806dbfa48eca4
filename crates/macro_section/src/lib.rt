// The section written out, with the place that each written byte comes from.
#![tactic(auto)]

ghost use Rattle.std.specs.Prelude.{◌≡◌, false, [], ◌+◌, ◌-◌, ◌≤◌, ◌<◌, length, take, drop, replicate};
ghost use Rattle.language.specs.Limits as limit;
ghost use Rattle.macro_code.specs.Places.{half, span_cell};
ghost use Rattle.macro_expansion.specs.Expanding.{change_writes};
ghost use Rattle.macro_memory.specs.Memory.{reach, Remembers};
ghost use Rattle.macro_values.specs.Wrote.{is_over, size_of, Wrote};
ghost use Rattle.macros.specs.Expansion.{levels};
ghost use Rattle.macro_section.specs.Origins.{ups, Fillable, Placed, Kept, Sectioned, Room, none};
ghost use Rattle.macro_section.specs.Long.{Steady, over_at};
ghost use Rattle.macro_code.specs.Code.{high, changes_in, first_change, change_count};

use macro_code::{CodePlaces, LEVELS};
use macro_expansion::{Level, Macros};
use macro_memory::Memory;
use macro_values::Written;
use statements::Fault;

// The section written out: what is written, and the place of question 66.
#[derive(Clone, Copy, Debug, PartialEq, Eq)]
pub struct WrittenOut {
    pub state: Written,
    pub long: Fault,
}

// The places of bytes that stay, from `place` on, for those from `from` on of what is written.
// `from` and the count of `v` are the two ends of a range that is made once here and once in `repeat_place`.
fn write_places(place: usize, places: &mut [u16], from: usize, v: Written)
    requires { (is_over v ≡ false → place + (size_of v - from) < half) × Fillable from v places.old }
    ensures { Placed from v places.old places.new (ups place (size_of v - from)) }
{
    let Some(count) = v.count else { return };
    for j in from..count {
        places[j] = (place + (j - from)) as u16;
    }
}

// The place of a call, for all bytes from `from` on of what is written.
fn repeat_place(place: u16, places: &mut [u16], from: usize, v: Written)
    requires { Fillable from v places.old }
    ensures { Placed from v places.old places.new (replicate (size_of v - from) place) }
{
    let Some(count) = v.count else { return };
    places[from..count].fill(place);
}

// Writes a change of the section, with 16 levels.
fn section_change(
    list: &Macros,
    memory: &mut Memory,
    out: &mut [u8],
    cell: usize,
    v: Written,
) -> Written
    requires { (cell < reach) × (size_of v ≤ length out.old) × Remembers list.now.hinted.listed.coded.text.now list.now.hinted.listed.coded.code.now list.now.hinted.listed.firsts.now (length list.now.hinted.listed.firsts.now) memory.old.slots v }
    ensures { Wrote (change_writes list.now.hinted.listed.coded.text.now list.now.hinted.listed.coded.code.now list.now.hinted.listed.firsts.now (length list.now.hinted.listed.firsts.now) [] levels cell) v result out.old out.new × Remembers list.now.hinted.listed.coded.text.now list.now.hinted.listed.coded.code.now list.now.hinted.listed.firsts.now (length list.now.hinted.listed.firsts.now) memory.new.slots result }
{
    let level = Level { cell, left: LEVELS };
    macro_expansion::write_change(list, memory, out, level, v)
}

// Writes bytes that stay, and their places.
// The rows of the bytes and of their places stand apart, since they are two locals of `macro_loading`, whose `loading` takes the bytes as `&[u8]` and
// the lines, which the places become, as `&[u16]`.
fn write_kept(
    text: &[u8],
    from: usize,
    to: usize,
    out: &mut [u8],
    places: &mut [u16],
    v: Written,
) -> Written
    requires { (from < half) × (to < half) × (length text.now ≤ limit.text) × (size_of v ≤ length out.old) × Room out.old places.old }
    ensures { Kept (take (to - from) (drop from text.now)) from v result out.old out.new places.old places.new }
{
    let written = v.append(text, from, to, out);
    write_places(from, places, v.count.unwrap_or(0), written);
    written
}

// The place at which something is over first.
fn over_at(long: Fault, before: Written, after: Written, place: usize) -> Fault
    ensures { result ≡ over_at long (is_over before) (is_over after) place }
{
    if before.count.is_some() & after.count.is_none() {
        return Some(place);
    }
    long
}

// Writes the section, with a memory for calls.
fn write_parts(
    list: &Macros,
    memory: &mut Memory,
    out: &mut [u8],
    places: &mut [u16],
    section: usize,
) -> WrittenOut
    requires { (section < half) × Room out.old places.old × Steady (high list.now.hinted.listed.coded.code.now (section + span_cell)) (changes_in list.now.hinted.listed.coded.text.now list.now.hinted.listed.coded.code.now (first_change list.now.hinted.listed.coded.code.now section) (change_count list.now.hinted.listed.coded.code.now section)) × Remembers list.now.hinted.listed.coded.text.now list.now.hinted.listed.coded.code.now list.now.hinted.listed.firsts.now (length list.now.hinted.listed.firsts.now) memory.old.slots none }
    ensures { Sectioned list.now.hinted.listed.coded.text.now list.now.hinted.listed.coded.code.now list.now.hinted.listed.firsts.now (length list.now.hinted.listed.firsts.now) section result out.old out.new places.new }
{
    let coded = &list.hinted.listed.coded;
    let stop = coded.low(section + CodePlaces::SPAN);
    let room = out.len();
    let mut place = coded.high(section + CodePlaces::SPAN);
    let mut w = Written::nothing();
    let mut long = None;
    for cell in coded.changes(section) {
        let start = coded.high(cell);
        let kept = write_kept(coded.text, place, start, out, places, w);
        let next = section_change(list, memory, out, cell, kept);
        repeat_place(start as u16, places, kept.count.unwrap_or(0), next);
        let first = over_at(long, w, kept, place + (room - w.count.unwrap_or(0)));
        long = over_at(first, kept, next, start);
        w = next;
        place = coded.low(cell);
    }
    let last = write_kept(coded.text, place, stop, out, places, w);
    WrittenOut {
        state: last,
        long: over_at(long, w, last, place + (room - w.count.unwrap_or(0))),
    }
}

// Writes the section, by its cell: what stays has its own places, and what calls write those of their stars.
pub fn write_section(
    list: &Macros,
    section: usize,
    out: &mut [u8],
    places: &mut [u16],
) -> WrittenOut
    requires { (section < half) × Room out.old places.old × Steady (high list.now.hinted.listed.coded.code.now (section + span_cell)) (changes_in list.now.hinted.listed.coded.text.now list.now.hinted.listed.coded.code.now (first_change list.now.hinted.listed.coded.code.now section) (change_count list.now.hinted.listed.coded.code.now section)) }
    ensures { Sectioned list.now.hinted.listed.coded.text.now list.now.hinted.listed.coded.code.now list.now.hinted.listed.firsts.now (length list.now.hinted.listed.firsts.now) section result out.old out.new places.new }
{
    let mut memory = Memory::new();
    write_parts(list, &mut memory, out, places, section)
}

// Of `macro_expansion`, passed on to the crates above.
pub mod from_macro_expansion {
    pub use macro_expansion::Macros;
}
