// The changes of a macro's body or of the section, read into cells.
#![tactic(auto)]

ghost use Rattle.std.specs.Option.{is_some};
ghost use Rattle.std.specs.Prelude.{◌≡◌, ◌&&◌, ◌||◌, ◌+◌, [], ◌≤◌, ◌<◌, length, set};
ghost use Rattle.lists.specs.Lists.{bytes_equal};
ghost use Rattle.macros.specs.Elements.{is_text, is_listed};
ghost use Rattle.macro_code.specs.Code.{paired, bytes_at};
ghost use Rattle.macro_code.specs.Places.{half, kind_cell};
ghost use Rattle.macro_elements.specs.ElementAt.{argument_value, Lent, Held};
ghost use Rattle.macro_changes.specs.Changing.{first_in, count_in, shuts, ends_given, wrong_by, kind_in, number_in, change_kind, change_number, value_in, none_passed, passed_over, passed_both, replaced, Named, EndsHere, Writing, Written, Found, Judging, Judged, Reading, GivenUp, ChangedBy, NextChange, ReadChanges, Starred, Worded};

use macro_code::{Change, CodePlaces, Coded, Given, pair};
use macro_elements::{
    Element, Source, is_identifier, is_listed, is_mark, next_before, next_element,
};
use scanner::Sort;
use statements::{Fault, lower};

// A body's parameters: their first cell and their count.
#[derive(Clone, Copy, Debug, PartialEq, Eq)]
pub struct Parameters {
    pub first: usize,
    pub count: usize,
}

// Where changes are read: in a body with these parameters, which a bracket closes, or in the section.
pub type Scope = Option<Parameters>;

// How many parameters there are.
fn count_in(x: Scope) -> usize
    ensures { result ≡ count_in x }
{
    x.map_or(0, |p| p.count)
}

// What is passed of a text: the place behind it, and the lowest place at fault.
#[derive(Clone, Copy, Debug, PartialEq, Eq)]
pub struct Passed {
    pub next: usize,
    pub fault: Fault,
}

impl Passed {
    // Nothing yet, from place `n` on.
    pub fn nothing(n: usize) -> Passed
        ensures { result ≡ none_passed n }
    {
        Passed {
            next: n,
            fault: None,
        }
    }

    // The next element too, which is at fault or not.
    pub fn over(self, t: Element, wrong: bool) -> Passed
        ensures { result ≡ passed_over self t wrong }
    {
        Passed {
            next: t.next,
            fault: lower(self.fault, wrong.then_some(t.at)),
        }
    }

    // And what is passed behind it.
    pub fn and(self, more: Passed) -> Passed
        ensures { result ≡ passed_both self more }
    {
        Passed {
            next: more.next,
            fault: lower(self.fault, more.fault),
        }
    }
}

// What was read: what is passed, the cell behind it, and the count of changes or arguments.
// The place and the cell go in as two numbers: a type for the two would be taken apart at each step.
#[derive(Clone, Copy, Debug, PartialEq, Eq)]
pub struct Step {
    pub passed: Passed,
    pub used: usize,
    pub count: usize,
}

// What an element is as a name or an argument, and whether what is joined to it may be: what it is does not tell that.
#[derive(Clone, Copy, Debug, PartialEq, Eq)]
struct Answer {
    given: Given,
    joins: bool,
}

// Two numbers into a cell.
// Here and in `macro_reading` the rows are lent as slices: a type `&mut [u32; N]` would be narrower than `requires`, which bounds the length.
pub fn put(code: &mut [u32], i: usize, a: usize, b: usize)
    requires { (i < length code.old) × (a < half) × (b < half) }
    ensures { code.new ≡ set code.old i (paired a b) }
{
    code[i] = pair(a, b);
}

// Two cells: of what is read its place, and what it is.
fn put_two(code: &mut [u32], u: usize, a: usize, b: usize, kind: usize, number: usize)
    requires room { u + kind_cell < length code.old }
    requires place { (a < half) × (b < half) }
    requires what { (kind < half) × (number < half) }
    ensures { code.new ≡ set (set code.old u (paired a b)) (u + kind_cell) (paired kind number) }
{
    put(code, u, a, b);
    put(code, u + CodePlaces::KIND, kind, number);
}

// The same of a name or an argument.
fn put_given(code: &mut [u32], u: usize, at: usize, size: usize, given: Given)
    requires room { u + kind_cell < length code.old }
    requires place { (at < half) × (size < half) }
    requires what { number_in given < half }
    ensures { code.new ≡ set (set code.old u (paired at size)) (u + kind_cell) (paired (kind_in given) (number_in given)) }
{
    let (kind, number) = match given {
        Given::Typed => (CodePlaces::TYPED, 0),
        Given::Parameter(k) => (CodePlaces::PARAMETER, k),
        Given::Joined(k) => (CodePlaces::JOINED, k),
    };
    put_two(code, u, at, size, kind, number);
}

// The same of a change, which begins and ends at two places.
pub fn put_change(code: &mut [u32], u: usize, start: usize, stop: usize, change: Change)
    requires room { u + kind_cell < length code.old }
    requires place { (start < half) × (stop < half) }
    requires what { change_number change < half }
    ensures { code.new ≡ set (set code.old u (paired start stop)) (u + kind_cell) (paired (change_kind change) (change_number change)) }
{
    let (kind, number) = match change {
        Change::Value(k) => (CodePlaces::VALUE, k),
        Change::Call(n) => (CodePlaces::CALL, n),
        Change::Nothing => (CodePlaces::NOTHING, 0),
    };
    put_two(code, u, start, stop, kind, number);
}

// Whether the bytes of the cell `i` are the name.
fn is_name(coded: &Coded, i: usize, name: &[u8]) -> bool
    ensures { result ≡ bytes_equal name.now (bytes_at coded.now.text.now coded.now.code.now i) }
{
    name == coded.bytes_at(i)
}

// The number of the parameter with these bytes.
fn find_parameter(coded: &Coded, x: Scope, name: &[u8]) -> Option<usize>
    requires { first_in x + count_in x ≤ length coded.now.code.now }
    ensures { Found coded.now.text.now coded.now.code.now x name.now result }
{
    let p = x?;
    (0..p.count).find(|k| is_name(coded, p.first + *k, name))
}

// What is typed as itself.
const TYPED: Answer = Answer {
    given: Given::Typed,
    joins: true,
};

fn answer_of(coded: &Coded, x: Scope, t: Element) -> Answer
    requires { Judging coded.now.text.now coded.now.code.now x t }
    ensures { Judged coded.now.text.now coded.now.code.now x t result }
{
    if let Some(behind) = t.joined {
        let k = find_parameter(coded, x, &coded.text[t.end + 1..behind]);
        return Answer {
            given: Given::Joined(k.unwrap_or(count_in(x))),
            joins: is_identifier(coded.text, t) & k.is_some(),
        };
    }
    if !t.is(Sort::Word) {
        return TYPED;
    }
    match find_parameter(coded, x, &coded.text[t.at..t.end]) {
        Some(k) => Answer {
            given: Given::Parameter(k),
            joins: true,
        },
        None => TYPED,
    }
}

// `joins` is a fact of the element that is handed on, and no switch.
fn is_argument(text: &[u8], t: Element, joins: bool) -> bool
    requires { Held text.now t }
    ensures { result ≡ (is_text (argument_value text.now t) || (is_listed (argument_value text.now t) && joins)) }
{
    t.is(Sort::Text) || (is_listed(text, t) && joins)
}

// Whether an element closes the body.
fn closes(x: Scope, t: Element) -> bool
    ensures { result ≡ shuts (is_some x) (argument_value [] t) }
{
    x.is_some() && is_mark(b')', t)
}

// Whether what a call gives ends at an element.
fn ends_given(x: Scope, t: Element) -> bool
    ensures { result ≡ ends_given (is_some x) (argument_value [] t) }
{
    closes(x, t) | t.is(Sort::End)
}

// All that follows a star up to the call's end.
fn read_given(source: &Source, code: &mut [u32], x: Scope, n: usize, u: usize) -> Step
    requires { Reading source.now.text.now source.now.marked.now code.old x n u }
    ensures { GivenUp source.now.text.now code.old code.new x n u result }
{
    let mut passed = Passed::nothing(n);
    let mut k: usize = 0;
    while let Some(t) = next_before(source, passed.next, |t| ends_given(x, t)) {
        let coded = Coded {
            text: source.text,
            code,
        };
        let a = answer_of(&coded, x, t);
        put_given(
            code,
            u + CodePlaces::GIVEN_SIZE * k,
            t.at,
            t.end - t.at,
            a.given,
        );
        passed = passed.over(t, !is_argument(source.text, t, a.joins));
        k += 1;
    }
    Step {
        passed,
        used: u + CodePlaces::GIVEN_SIZE * k,
        count: k,
    }
}

fn name_fault(source: &Source, x: Scope, star: usize, n: usize) -> Fault
    requires { Lent source.now.text.now source.now.marked.now n }
    ensures { Named source.now.text.now (is_some x) star n result }
{
    let Some(t) = next_before(source, n, |t| ends_given(x, t)) else {
        return Some(star);
    };
    let named = is_identifier(source.text, t) & t.joined.is_none();
    (!named).then_some(t.at)
}

// Where a call ends, and the place behind it.
#[derive(Clone, Copy, Debug, PartialEq, Eq)]
struct Ending {
    stop: usize,
    next: usize,
}

fn end_of_call(source: &Source, n: usize) -> Ending
    requires { Lent source.now.text.now source.now.marked.now n }
    ensures { EndsHere source.now.text.now n result }
{
    let Some(t) = next_element(source, n) else {
        return Ending {
            stop: source.text.len(),
            next: n,
        };
    };
    if t.is(Sort::End) {
        return Ending {
            stop: t.at + usize::from(t.byte == b';'),
            next: t.next,
        };
    }
    Ending {
        stop: t.at,
        next: n,
    }
}

// A call's own cells, and the cell behind it. One that is ill formed puts nothing in its stead.
fn write_call(
    code: &mut [u32],
    u: usize,
    start: usize,
    stop: usize,
    count: usize,
    fault: Fault,
) -> usize
    requires { Writing code.old u start stop count fault }
    ensures { Written code.old code.new u start stop count fault result }
{
    match fault {
        None => {
            put_change(code, u, start, stop, Change::Call(count - 1));
            u + CodePlaces::NAME + CodePlaces::GIVEN_SIZE * count
        }
        Some(_) => {
            put_change(code, u, start, stop, Change::Nothing);
            u + CodePlaces::SMALL_SIZE
        }
    }
}

// The call that begins with this star.
fn read_call(source: &Source, code: &mut [u32], x: Scope, star: Element, u: usize) -> Step
    requires { Starred source.now.text.now source.now.marked.now code.old x star u }
    ensures { ChangedBy source.now.text.now code.old code.new x star u result }
{
    let r = read_given(source, code, x, star.next, u + CodePlaces::NAME);
    let name = name_fault(source, x, star.at, star.next);
    let fault = lower(name, r.passed.fault);
    let e = end_of_call(source, r.passed.next);
    let used = write_call(code, u, star.at, e.stop, r.count, fault);
    Step {
        passed: Passed {
            next: e.next,
            fault,
        },
        used,
        count: 1,
    }
}

// Whether an element outside calls is at fault.
fn is_wrong(text: &[u8], x: Scope, t: Element, joins: bool) -> bool
    requires { Held text.now t }
    ensures { result ≡ wrong_by (is_some x) joins (argument_value text.now t) }
{
    let stray = is_mark(b'(', t) | is_mark(b')', t) | is_mark(b'\'', t) | !joins;
    stray | (x.is_some() & (t.is(Sort::Word) & !is_listed(text, t)))
}

// The number of the parameter whose value is put in an element's place: in the section there is none.
fn value_in(x: Scope, given: Given) -> Option<usize>
    ensures { result ≡ value_in x given }
{
    x?;
    given.parameter()
}

// The places that a parameter's value takes in a body: those of its name, or of the apostrophe with what it joins.
fn replaced(t: Element, given: Given) -> (usize, usize)
    ensures { result ≡ replaced t given }
{
    match given {
        Given::Parameter(_) => (t.at, t.end),
        Given::Typed | Given::Joined(_) => (t.end, t.joined.unwrap_or(t.end)),
    }
}

// An element outside calls: in a body a parameter, or an apostrophe with one, is changed.
fn read_word(text: &[u8], code: &mut [u32], x: Scope, t: Element, u: usize) -> Step
    requires { Worded text.now code.old x t u }
    ensures { ChangedBy text.now code.old code.new x t u result }
{
    let a = answer_of(&Coded { text, code }, x, t);
    let passed = Passed {
        next: t.next,
        fault: is_wrong(text, x, t, a.joins).then_some(t.at),
    };
    let Some(k) = value_in(x, a.given) else {
        return Step {
            passed,
            used: u,
            count: 0,
        };
    };
    let (start, stop) = replaced(t, a.given);
    put_change(code, u, start, stop, Change::Value(k));
    Step {
        passed,
        used: u + CodePlaces::SMALL_SIZE,
        count: 1,
    }
}

// The call or the word that comes next from place `n` on, if there is one inside.
fn read_change(source: &Source, code: &mut [u32], x: Scope, n: usize, u: usize) -> Option<Step>
    requires { Reading source.now.text.now source.now.marked.now code.old x n u }
    ensures { NextChange source.now.text.now code.old code.new x n u result }
{
    let t = next_before(source, n, |t| closes(x, t))?;
    if is_mark(b'*', t) {
        return Some(read_call(source, code, x, t, u));
    }
    Some(read_word(source.text, code, x, t, u))
}

// All changes from place `n` on, into the cells from `u` on.
pub fn read_changes(source: &Source, code: &mut [u32], x: Scope, n: usize, u: usize) -> Step
    requires { Reading source.now.text.now source.now.marked.now code.old x n u }
    ensures { ReadChanges source.now.text.now code.old code.new x n u result }
{
    let mut passed = Passed::nothing(n);
    let mut used = u;
    let mut count: usize = 0;
    while let Some(r) = read_change(source, code, x, passed.next, used) {
        passed = passed.and(r.passed);
        used = r.used;
        count += r.count;
    }
    Step {
        passed,
        used,
        count,
    }
}
