// The expansion of macros: recursive, each call with one level less.
#![tactic(auto)]

ghost use Rattle.std.specs.Prelude.{◌≡◌, ◌+◌, ◌-◌, ◌≤◌, ◌<◌, length, get_or, set, true, false, ◌&&◌, [], ◌∷◌, leb, Some, None};
ghost use Rattle.language.specs.Limits as limit;
ghost use Rattle.macro_calls.specs.Calls.{Finds};
ghost use Rattle.macro_code.specs.Code.{given_in, arguments_in, change_in, call_in};
ghost use Rattle.macro_code.specs.Places.{half, cells, name_cell};
ghost use Rattle.macros.specs.Expansion.{filled_in, levels};
ghost use Rattle.macros.specs.Pieces.Piece.{called};
ghost use Rattle.macro_memory.specs.Memory.{reach, Found, Remembers};
ghost use Rattle.macro_values.specs.Wrote.{is_over, size_of, Wrote};
ghost use Rattle.macro_expansion.specs.Expanding.{arguments_at, FitsList, Judged, Met, Near, Whole, Behind, Ran, Expands, change_writes, rest_writes};

mod listing;

pub use listing::Macros;
use macro_code::{Change, Changes, CodePlaces, Coded, Faults, Given, LEVELS};
pub use macro_memory::Level;
use macro_memory::{Entered, Memory};
use macro_values::{Around, Written};

// Room for a name, more than the 60 bytes that one may have.
const NAME_ROOM: usize = 64;

// A change that is passed; or a call that is to be entered, by the cell of its macro.
// `Paused` has a `Pause` in the place of the cell. One struct with a type parameter would need a name for each of the two all the same, and a bound for
// each of its derives.
#[derive(Clone, Copy, Debug, PartialEq, Eq)]
pub struct Step {
    pub state: Written,
    pub call: Option<usize>,
}

// The rest of a body: from a place of the text up to another, with the changes that are left; and its level.
#[derive(Clone, Copy, Debug, PartialEq, Eq)]
pub struct Rest<'a> {
    pub place: usize,
    pub stop: usize,
    pub changes: Changes<'a>,
    pub left: usize,
}

// A call that is to be entered: the cell of its macro, and its own; and the changes behind it.
#[derive(Clone, Copy, Debug, PartialEq, Eq)]
pub struct Pause<'a> {
    pub body: usize,
    pub cell: usize,
    pub changes: Changes<'a>,
}

// A body that is written up to a call that is to be entered, or to its end.
#[derive(Clone, Copy, Debug, PartialEq, Eq)]
pub struct Paused<'a> {
    pub state: Written,
    pub call: Option<Pause<'a>>,
}

// The macro of a call's name within the nested calls, which is written into the row `name`. A name that has no room is no macro's.
fn find_written(list: &Macros, around: &Around, cell: usize, name: &mut [u8]) -> Option<usize>
    requires { (cell < reach) × (limit.item < length name.old) × (length name.old < half) }
    ensures { Finds list.now.hinted.listed.coded.text.now list.now.hinted.listed.coded.code.now list.now.hinted.listed.firsts.now (length list.now.hinted.listed.firsts.now) (filled_in (arguments_in around.now.coded.text.now around.now.coded.code.now around.now.calls.now around.now.depth) (given_in around.now.coded.text.now around.now.coded.code.now (cell + name_cell))) result }
{
    let written = around.write_given(cell + CodePlaces::NAME, name, Written::nothing());
    let n = written.count?;
    macro_calls::find_macro(&list.hinted.listed, &name[..n])
}

// The macro of a call's name within the nested calls.
fn called_macro(list: &Macros, memory: &Memory, at: Level) -> Option<usize>
    requires { (at.cell < reach) × (at.left ≤ levels) }
    ensures { Finds list.now.hinted.listed.coded.text.now list.now.hinted.listed.coded.code.now list.now.hinted.listed.firsts.now (length list.now.hinted.listed.firsts.now) (filled_in (arguments_at list.now.hinted.listed.coded.text.now list.now.hinted.listed.coded.code.now memory.now.calls at.left) (given_in list.now.hinted.listed.coded.text.now list.now.hinted.listed.coded.code.now (at.cell + name_cell))) result }
{
    if let Given::Typed = list
        .hinted
        .listed
        .coded
        .given_at(at.cell + CodePlaces::NAME)
    {
        return list.hinted.find_target(at.cell);
    }
    let around = memory.around(&list.hinted.listed.coded, at.left);
    find_written(list, &around, at.cell, &mut [0u8; NAME_ROOM])
}

// The change is passed.
fn stay(v: Written) -> Step
    ensures { (result.state ≡ v) × (result.call ≡ None) }
{
    Step {
        state: v,
        call: None,
    }
}

// Whether nothing more is written, and the macro number `k` meets no call by a parameter with so many levels left around it.
fn is_settled(list: &Macros, k: usize, left: usize, v: Written) -> bool
    ensures { result ≡ (is_over v && leb left (get_or list.now.loose.now k 0)) }
{
    v.count.is_none() & (left <= list.loose_height(k))
}

// Whether a call is remembered as one that changes nothing. It is looked up only if the macro number `k` meets a call by a parameter.
// A no is always right: the call is entered then.
fn is_done(list: &Macros, memory: &Memory, k: usize, at: Entered) -> bool
    requires { (at.cell < reach) × (1 ≤ at.left) × (at.left ≤ levels) × (at.body < half) }
    ensures { result ≡ true → Found list.now.hinted.listed.coded.text.now list.now.hinted.listed.coded.code.now memory.now.slots memory.now.calls at.left at.cell at.body }
{
    list.loose_height(k) < at.left && memory.has(&list.hinted.listed.coded, at)
}

// Passes a call, unless it is to be entered: "each called macro in the list once? 64. Are there as many arguments as parameters? 65."
fn meet_call(list: &Macros, memory: &Memory, at: Level, v: Written) -> Step
    requires { (at.cell < reach) × (at.left ≤ levels) × ((change_in list.now.hinted.listed.coded.text.now list.now.hinted.listed.coded.code.now at.cell).pieces ≡ called (call_in list.now.hinted.listed.coded.text.now list.now.hinted.listed.coded.code.now at.cell) ∷ []) × Remembers list.now.hinted.listed.coded.text.now list.now.hinted.listed.coded.code.now list.now.hinted.listed.firsts.now (length list.now.hinted.listed.firsts.now) memory.now.slots v }
    ensures { Judged list.now.hinted.listed.coded.text.now list.now.hinted.listed.coded.code.now list.now.hinted.listed.firsts.now (length list.now.hinted.listed.firsts.now) memory.now.calls at.left at.cell v result }
{
    let Some(k) = called_macro(list, memory, at) else {
        let place = list.hinted.listed.coded.high(at.cell + CodePlaces::NAME);
        return stay(v.and_faults(Faults {
            unknown: Some(place),
            ..Faults::NONE
        }));
    };
    let body = list.hinted.listed.first_cell(k);
    let uneven = macro_calls::count_fault(&list.hinted.listed.coded, at.cell, body);
    if uneven.is_some() {
        return stay(v.and_faults(Faults {
            uneven,
            ..Faults::NONE
        }));
    }
    if at.left == 0 {
        return stay(Written { count: None, ..v });
    }
    if list.quiet_height(k) < at.left {
        return stay(v);
    }
    if is_settled(list, k, at.left, v) {
        return stay(v);
    }
    let entered = Entered {
        cell: at.cell,
        left: at.left,
        body,
    };
    if is_done(list, memory, k, entered) {
        return stay(v);
    }
    Step {
        state: v,
        call: Some(body),
    }
}

// Passes a change, unless it is a call that is to be entered.
fn meet(list: &Macros, memory: &Memory, out: &mut [u8], at: Level, v: Written) -> Step
    requires { (at.cell < reach) × FitsList list.now at.left memory.now.slots v out.old }
    ensures { Met list.now.hinted.listed.coded.text.now list.now.hinted.listed.coded.code.now list.now.hinted.listed.firsts.now (length list.now.hinted.listed.firsts.now) memory.now.calls at.left at.cell v result out.old out.new }
{
    match list.hinted.listed.coded.change_at(at.cell) {
        Change::Value(k) => {
            let around = memory.around(&list.hinted.listed.coded, at.left);
            stay(around.write_value(k, out, v))
        }
        Change::Call(_) => meet_call(list, memory, at, v),
        Change::Nothing => stay(v),
    }
}

// Writes the rest of a body up to the next call that is to be entered.
fn run<'a>(list: &Macros, memory: &Memory, out: &mut [u8], rest: Rest<'a>, v: Written) -> Paused<'a>
    requires { Near list.now.hinted.listed.coded.code.now rest × FitsList list.now rest.left memory.now.slots v out.old }
    ensures { Ran list.now.hinted.listed.coded.text.now list.now.hinted.listed.coded.code.now list.now.hinted.listed.firsts.now (length list.now.hinted.listed.firsts.now) memory.now.calls rest.entry.left rest.entry.stop rest.entry.changes.left (rest_writes list.now.hinted.listed.coded.text.now list.now.hinted.listed.coded.code.now list.now.hinted.listed.firsts.now (length list.now.hinted.listed.firsts.now) memory.now.calls rest.entry.left rest.entry.place rest.entry.stop rest.entry.changes.cell rest.entry.changes.left) v result out.old out.new }
{
    let coded = &list.hinted.listed.coded;
    let left = rest.left;
    let mut place = rest.place;
    let mut changes = rest.changes;
    let mut w = v;
    while let Some(cell) = changes.next() {
        let kept = w.append(coded.text, place, coded.high(cell), out);
        let step = meet(list, memory, out, Level { cell, left }, kept);
        if let Some(body) = step.call {
            return Paused {
                state: step.state,
                call: Some(Pause {
                    body,
                    cell,
                    changes,
                }),
            };
        }
        w = step.state;
        place = coded.low(cell);
    }
    Paused {
        state: w.append(coded.text, place, rest.stop, out),
        call: None,
    }
}

// The whole of a body.
fn whole<'a>(coded: &Coded<'a>, at: Level) -> Rest<'a>
    requires { at.cell < half }
    ensures { Whole coded.now.code.now at result }
{
    Rest {
        place: coded.high(at.cell + CodePlaces::SPAN),
        stop: coded.low(at.cell + CodePlaces::SPAN),
        changes: coded.changes(at.cell),
        left: at.left,
    }
}

// The rest of a body behind a call.
fn behind<'a>(coded: &Coded, at: Level, pause: Pause<'a>) -> Rest<'a>
    requires { (at.cell < half) × (pause.changes.coded.code.now ≡ coded.now.code.now) }
    ensures { Behind coded.now.code.now at pause.entry result }
{
    Rest {
        place: coded.low(pause.cell),
        stop: coded.low(at.cell + CodePlaces::SPAN),
        changes: pause.changes,
        left: at.left,
    }
}

// Stores the cell of a call.
// An index and a cast are plainer here than a call of `cells`, which this crate does not name.
fn keep_call(memory: &mut Memory, d: usize, cell: usize)
    requires { (d < levels) × (cell < cells) }
    ensures { (memory.new.calls ≡ set memory.old.calls d cell) × (d < length memory.old.calls) × (memory.new.slots ≡ memory.old.slots) }
{
    memory.calls[d] = cell as u32;
}

// Whether the row is over, or as long as it was.
fn is_steady(v: Written, r: Written) -> bool
    ensures { result ≡ true → is_over r ≡ false → size_of r ≡ size_of v }
{
    r.count.is_none() | (r.count == v.count)
}

// Writes a body: recursive expansion; the levels left, 16 at first, fall at each call.
fn expand_body(list: &Macros, memory: &mut Memory, out: &mut [u8], at: Level, v: Written) -> Written
    requires { (at.cell < half) × (at.left < levels) × FitsList list.now at.left memory.old.slots v out.old }
    ensures { Expands list.now.hinted.listed.coded.text.now list.now.hinted.listed.coded.code.now list.now.hinted.listed.firsts.now (length list.now.hinted.listed.firsts.now) memory.old memory.new at.left at.cell v result out.old out.new }
{
    let mut paused = run(list, memory, out, whole(&list.hinted.listed.coded, at), v);
    while let Some(pause) = paused.call {
        keep_call(memory, LEVELS - at.left, pause.cell);
        let inner = Level {
            cell: pause.body,
            left: at.left - 1,
        };
        let written = expand_body(list, memory, out, inner, paused.state);
        paused = run(
            list,
            memory,
            out,
            behind(&list.hinted.listed.coded, at, pause),
            written,
        );
    }
    let last = paused.state;
    if !is_steady(v, last) {
        return last;
    }
    memory.remember(&list.hinted.listed.coded, at);
    last
}

// Writes a change, with so many levels left around it.
pub fn write_change(
    list: &Macros,
    memory: &mut Memory,
    out: &mut [u8],
    at: Level,
    v: Written,
) -> Written
    requires { (at.cell < reach) × FitsList list.now at.left memory.old.slots v out.old }
    ensures { Wrote (change_writes list.now.hinted.listed.coded.text.now list.now.hinted.listed.coded.code.now list.now.hinted.listed.firsts.now (length list.now.hinted.listed.firsts.now) memory.old.calls at.left at.cell) v result out.old out.new × Remembers list.now.hinted.listed.coded.text.now list.now.hinted.listed.coded.code.now list.now.hinted.listed.firsts.now (length list.now.hinted.listed.firsts.now) memory.new.slots result }
{
    let step = meet(list, memory, out, at, v);
    let Some(body) = step.call else {
        return step.state
    };
    keep_call(memory, LEVELS - at.left, at.cell);
    let left = at.left - 1;
    expand_body(list, memory, out, Level { cell: body, left }, step.state)
}
