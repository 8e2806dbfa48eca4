// The calls by a typed name: the macro that each calls, and questions 64 and 65 "as typed, in the list too".
#![tactic(auto)]

ghost use Rattle.std.specs.Prelude.{◌≡◌, true, ◌&&◌, cond, ◌+◌, ◌/◌, ◌≤◌, ◌<◌, ltb, length, Some, get_or, set, position};
ghost use Rattle.lists.specs.Lists.{each, bytes_equal};
ghost use Rattle.macros.specs.Prepared.{piece_faults};
ghost use Rattle.macro_code.specs.Code.{high, bytes_at, change_in, body_in, macros_in};
ghost use Rattle.macro_code.specs.Known.{Singles};
ghost use Rattle.macro_code.specs.Places.{half, name_cell, macros};
ghost use Rattle.macro_code.specs.Bounds.{near, far};
ghost use Rattle.macro_calls.specs.Calls.{is_typed_call, Finds, Counts, change_faults, typed_in, Told};

use macro_code::{Change, CodePlaces, Coded, Faults, Given, argument_cell};
use statements::Fault;

// The list of macros of a text, by the first cell of each.
#[derive(Clone, Copy, Debug, PartialEq, Eq)]
pub struct Listed<'a> {
    pub coded: Coded<'a>,
    pub firsts: &'a [u16],
}

impl<'a> Listed<'a> {
    // The first cell of the macro number `k`, and 0 where there is none.
    pub fn first_cell(&self, k: usize) -> usize
        ensures { (result ≡ get_or self.now.firsts.now k 0) × (result < half) }
    {
        usize::from(self.firsts.get(k).copied().unwrap_or(0))
    }
}

// Whether the macro has the name, by its first cell.
fn has_name(coded: &Coded, first: u16, name: &[u8]) -> bool
    ensures { result ≡ bytes_equal name.now (bytes_at coded.now.text.now coded.now.code.now first) }
{
    name == coded.bytes_at(usize::from(first))
}

// The number of the first of some macros, by their first cells, that has a name.
fn first_named(coded: &Coded, firsts: &[u16], name: &[u8]) -> Option<usize>
    ensures { result ≡ position (λ q. bytes_equal name.now (bytes_at coded.now.text.now coded.now.code.now q)) firsts.now }
{
    firsts.iter().position(|q| has_name(coded, *q, name))
}

// The number of the macro that alone in the list has a name.
pub fn find_macro(list: &Listed, name: &[u8]) -> Option<usize>
    ensures { Finds list.now.coded.text.now list.now.coded.code.now list.now.firsts.now (length list.now.firsts.now) name.now result }
{
    let number = first_named(&list.coded, list.firsts, name)?;
    let (_, others) = list.firsts.split_at(number + 1);
    let second = first_named(&list.coded, others, name);
    second.is_none().then_some(number)
}

// Of each macro, whether it is the only one of its name.
pub fn find_singles(list: &Listed, singles: &mut [bool])
    requires { length list.now.firsts.now ≤ length singles.old }
    ensures { Singles list.now.coded.text.now list.now.coded.code.now list.now.firsts.now (length list.now.firsts.now) singles.new }
{
    for (k, first) in list.firsts.iter().enumerate() {
        let single = find_macro(list, list.coded.bytes_at(usize::from(*first)));
        singles[k] = single.is_some();
    }
}

// Where the hint of a call is kept: the stars of two calls stand more than one byte apart.
fn hint_at(coded: &Coded, i: usize) -> usize
    ensures { result ≡ high coded.now.code.now i / 2 }
{
    coded.high(i) / 2
}

// A list of macros; whether each is the only one of its name, and hints for the calls.
#[derive(Clone, Copy, Debug, PartialEq, Eq)]
pub struct Hinted<'a> {
    pub listed: Listed<'a>,
    pub singles: &'a [bool],
    pub hints: &'a [u16],
    ghost singles_are: { Singles listed.coded.text.now listed.coded.code.now listed.firsts.now (length listed.firsts.now) singles.now },
}

impl<'a> Hinted<'a> {
    // Whether a hint names a macro that alone in the list has the name.
    fn is_single(&self, hint: usize, name: &[u8]) -> bool
        ensures { result ≡ true → Finds self.now.listed.coded.text.now self.now.listed.coded.code.now self.now.listed.firsts.now (length self.now.listed.firsts.now) name.now (Some hint) }
    {
        let Some(first) = self.listed.firsts.get(hint) else {
            return false
        };
        self.singles.get(hint).copied().unwrap_or(false)
            && has_name(&self.listed.coded, *first, name)
    }

    // The number of the macro that alone in the list has the typed name of the call at `i`. The hint for it is tried first.
    pub fn find_target(&self, i: usize) -> Option<usize>
        requires { i < far }
        ensures { Finds self.now.listed.coded.text.now self.now.listed.coded.code.now self.now.listed.firsts.now (length self.now.listed.firsts.now) (bytes_at self.now.listed.coded.text.now self.now.listed.coded.code.now (i + name_cell)) result }
    {
        let coded = &self.listed.coded;
        let name = coded.bytes_at(i + CodePlaces::NAME);
        let hint = usize::from(self.hints.get(hint_at(coded, i)).copied().unwrap_or(0));
        if self.is_single(hint, name) {
            return Some(hint);
        }
        find_macro(&self.listed, name)
    }
}

pub fn is_typed_call(coded: &Coded, i: usize) -> bool
    requires { i < far }
    ensures { result ≡ is_typed_call coded.now.code.now i }
{
    match coded.change_at(i) {
        Change::Call(_) => coded.given_at(i + CodePlaces::NAME) == Given::Typed,
        Change::Value(_) | Change::Nothing => false,
    }
}

// Question 65 of the call at `i` of the macro at `m`: its name is at fault where there are too few arguments, and the first that is too many.
pub fn count_fault(coded: &Coded, i: usize, m: usize) -> Fault
    requires { (i < far) × (m < near) }
    ensures { Counts coded.now.code.now i m result }
{
    let given = coded.low(i + CodePlaces::KIND);
    let taken = coded.high(m + CodePlaces::COUNTS);
    if given < taken {
        return Some(coded.high(i + CodePlaces::NAME));
    }
    if taken < given {
        return Some(coded.high(argument_cell(i, taken)));
    }
    None
}

// The macro of a call, for the next time, where there is room. What a hint says is asked again, so no promise of the others rests on it.
fn keep_hint(hints: &mut [u16], at: usize, k: usize)
    ensures { hints.new ≡ cond (ltb at (length hints.old) && ltb k macros) (set hints.old at k) hints.old }
{
    if at < hints.len() && k < CodePlaces::MACROS {
        hints[at] = k as u16;
    }
}

// The faults of one change.
fn change_faults(list: &Listed, hints: &mut [u16], i: usize) -> Faults
    requires { i < far }
    ensures { Told (change_faults (macros_in list.now.coded.text.now list.now.coded.code.now list.now.firsts.now (length list.now.firsts.now)) (change_in list.now.coded.text.now list.now.coded.code.now i)) result }
{
    if !is_typed_call(&list.coded, i) {
        return Faults::NONE;
    }
    let at = i + CodePlaces::NAME;
    let Some(number) = find_macro(list, list.coded.bytes_at(at)) else {
        return Faults {
            unknown: Some(list.coded.high(at)),
            ..Faults::NONE
        };
    };
    keep_hint(hints, hint_at(&list.coded, i), number);
    Faults {
        uneven: count_fault(&list.coded, i, list.first_cell(number)),
        ..Faults::NONE
    }
}

// The faults of the body of a macro, or of the section.
fn body_faults(list: &Listed, hints: &mut [u16], q: usize) -> Faults
    requires { q < near }
    ensures { Told (each (piece_faults (macros_in list.now.coded.text.now list.now.coded.code.now list.now.firsts.now (length list.now.firsts.now))) (body_in list.now.coded.text.now list.now.coded.code.now q)) result }
{
    let mut faults = Faults::NONE;
    for i in list.coded.changes(q) {
        faults = faults.and(change_faults(list, hints, i));
    }
    faults
}

// Questions 64 and 65 "as typed, in the list too". Each call that has a macro leaves a hint, which is its number, at the place of its star.
pub fn typed_faults(list: &Listed, hints: &mut [u16], section: usize) -> Faults
    requires { section < near }
    ensures { Told (typed_in list.now.coded.text.now list.now.coded.code.now list.now.firsts.now (length list.now.firsts.now) section) result }
{
    let mut faults = Faults::NONE;
    for first in list.firsts {
        faults = faults.and(body_faults(list, hints, usize::from(*first)));
    }
    faults.and(body_faults(list, hints, section))
}
