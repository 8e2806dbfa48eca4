// The list of macros and the section of a text, read into cells.
#![tactic(auto)]

ghost use Rattle.std.specs.Option.{option_or};
ghost use Rattle.std.specs.Prelude.{Some, None, ◌≡◌, cond, not, List, [], ◌∷◌, ℕ, ◌-◌, ◌<◌};
ghost use Rattle.macros.specs.Elements.{is_bracket};
ghost use Rattle.macro_elements.specs.ElementAt.{elements_from, argument_value, Lent};
ghost use Rattle.macro_reading.specs.Whole.{follow_faults, Sectioned, SectionRead, Bracketed, ListRead, LentRows, MacrosRead};
ghost use Rattle.macros.specs.Conditions.{outer};
ghost use Rattle.macro_reading.specs.Sections.{Skips, FirstRead, Tailed, TailRead};
ghost use Rattle.statements.specs.Faults.{lower};
ghost use Rattle.statements.specs.StatementAt.{fault_of};
ghost use Rattle.macro_reading.specs.Definitions.{NextOpen, Definable, Defined, Listable, DefinitionsRead};
ghost use Rattle.macro_reading.specs.Bodies.{Bodied, BodyRead};
ghost use Rattle.macro_reading.specs.Headers.{word_cell, Headable, HeaderRead};

use macro_changes::{Parameters, Passed, put, put_change, read_changes};
use macro_code::{Change, CodePlaces};
use macro_elements::{Element, Source, is_identifier, is_mark, next_before, next_element};
use scanner::Sort;
use statements::{Fault, lower};

// A body that was read: what is passed, the cell behind it, and whether a bracket closes it.
#[derive(Clone, Copy, Debug, PartialEq, Eq)]
struct Body {
    passed: Passed,
    used: usize,
    closed: bool,
}

// A macro's body or the section, from place `n` on, with its record at the cell `q`. Its name and its parameters stand there already.
fn read_body(
    source: &Source,
    code: &mut [u32],
    p: Parameters,
    q: usize,
    start: usize,
    n: usize,
) -> Body
    requires { Bodied source.now.text.now source.now.marked.now code.old (Some p) q start n }
    ensures { BodyRead source.now.text.now code.old code.new (Some p) q start n result }
{
    let r = read_changes(source, code, Some(p), n, p.first + p.count);
    let t = next_element(source, r.passed.next);
    let stop = t.map_or(source.text.len(), |t| t.at);
    put(code, q + CodePlaces::SPAN, start, stop);
    put(code, q + CodePlaces::COUNTS, p.count, r.count);
    Body {
        passed: Passed {
            next: t.map_or(r.passed.next, |t| t.next),
            ..r.passed
        },
        used: r.used,
        closed: t.is_some(),
    }
}

// A header that was read: what is passed; the count of its words, and the place of the first, if there is one; and whether anything but new lines
// stands in it.
#[derive(Clone, Copy, Debug, PartialEq, Eq)]
struct Header {
    passed: Passed,
    words: usize,
    first: Option<usize>,
    some: bool,
}

// The cell of a header's word: the name's own, or a parameter's.
// One choice of two numbers, plainest as an `if` and a return.
fn word_cell(q: usize, k: usize) -> usize
    requires { (q < 1000000) × (k < 1000000) }
    ensures { result ≡ word_cell q k }
{
    if k == 0 {
        return q;
    }
    q + CodePlaces::COUNTS + k
}

// Whether an element is a round bracket.
fn is_bracket(t: Element) -> bool
    ensures { result ≡ is_bracket (argument_value [] t) }
{
    is_mark(b'(', t) | is_mark(b')', t)
}

// The place of the first word, where another one is met, or none.
fn earlier(first: Option<usize>, word: bool, at: usize) -> Option<usize>
    ensures { result ≡ option_or first (cond word (Some at) None) }
{
    first.or(word.then_some(at))
}

// The name and the parameters of a macro, from place `n` on, into its cells from `q` on.
fn read_header(source: &Source, code: &mut [u32], n: usize, q: usize) -> Header
    requires { Headable source.now.text.now source.now.marked.now code.old n q }
    ensures { HeaderRead source.now.text.now code.old code.new n q result }
{
    let mut passed = Passed::nothing(n);
    let mut words: usize = 0;
    let mut first = None;
    let mut some = false;
    while let Some(t) = next_before(source, passed.next, |t| is_bracket(t)) {
        let line = t.byte == b'\n';
        passed = passed.over(t, !(is_identifier(source.text, t) | line));
        some = some | !line;
        let word = t.is(Sort::Word);
        first = earlier(first, word, t.at);
        put(code, word_cell(q, words), t.at, t.end - t.at);
        words += usize::from(word);
    }
    Header {
        passed,
        words,
        first,
        some,
    }
}

// A definition that was read: what is passed; and the cell behind it, if it has a name.
#[derive(Clone, Copy, Debug, PartialEq, Eq)]
struct Definition {
    passed: Passed,
    used: Option<usize>,
}

// The faults of a header and of a body, and of the bracket between them, where there is no name or the body is not closed.
fn definition_fault(header: Fault, sound: bool, at: usize, body: Fault) -> Fault
    ensures { result ≡ lower header (lower (fault_of (cond (not sound) (at ∷ []) [])) body) }
{
    lower(header, lower((!sound).then_some(at), body))
}

// The next element from place `n` on, where it is an opening bracket.
fn next_open(source: &Source, n: usize) -> Option<Element>
    requires { Lent source.now.text.now source.now.marked.now n }
    ensures { NextOpen source.now.text.now n result }
{
    let t = next_element(source, n)?;
    is_mark(b'(', t).then_some(t)
}

// The definition that begins at place `n`, with its record at the cell `q`; none, where the header has no body behind it.
fn read_definition(source: &Source, code: &mut [u32], n: usize, q: usize) -> Option<Definition>
    requires { Definable source.now.text.now source.now.marked.now code.old n q }
    ensures { Defined source.now.text.now code.old code.new n q result }
{
    let h = read_header(source, code, n, q);
    let b = next_open(source, h.passed.next)?;
    let p = Parameters {
        first: q + CodePlaces::PARAMETERS,
        count: h.words.saturating_sub(1),
    };
    let r = read_body(source, code, p, q, b.at + 1, b.next);
    let named = 0 < h.words;
    Some(Definition {
        passed: Passed {
            next: r.passed.next,
            fault: definition_fault(h.passed.fault, named & r.closed, b.at, r.passed.fault),
        },
        used: named.then_some(r.used),
    })
}

// The definitions that were read: what is passed, up to the stretch behind them; the cell behind them; the count of macros; and whether there is a
// definition: one without a name counts no macro, so that the count does not tell it.
#[derive(Clone, Copy, Debug, PartialEq, Eq)]
struct Definitions {
    passed: Passed,
    used: usize,
    count: usize,
    defined: bool,
}

// All definitions from place `n` on, behind the list's bracket, and the first cell of each macro.
// There is no heap: the lent row has room for the most macros, so the count `k` of those that are there stands beside it.
fn read_definitions(source: &Source, code: &mut [u32], firsts: &mut [u16], n: usize) -> Definitions
    requires { Listable source.now.text.now source.now.marked.now code.old firsts.old n }
    ensures { DefinitionsRead source.now.text.now code.old firsts.old code.new firsts.new n result }
{
    let mut passed = Passed::nothing(n);
    let mut q: usize = 0;
    let mut k: usize = 0;
    let mut defined = false;
    while let Some(r) = read_definition(source, code, passed.next, q) {
        firsts[k] = q as u16;
        k += usize::from(r.used.is_some());
        q = r.used.unwrap_or(q);
        passed = passed.and(r.passed);
        defined = true;
    }
    Definitions {
        passed,
        used: q,
        count: k,
        defined,
    }
}

// The place from `n` on where the first element that ends no statement stands, or the end.
fn skip_ends(source: &Source, n: usize) -> usize
    requires { Lent source.now.text.now source.now.marked.now n }
    ensures { Skips source.now.text.now n result }
{
    let mut i = n;
    while let Some(t) = next_element(source, i) {
        if !t.is(Sort::End) {
            return i;
        }
        i = t.next;
    }
    i
}

// Whether an element may not stand before the list.
fn is_outer(t: Element) -> bool
    ensures { (s : List ℕ) → result ≡ outer (argument_value s t) }
{
    is_mark(b'*', t) | (is_bracket(t) | is_mark(b'\'', t) | t.joined.is_some())
}

// The first statement, from place `n` on.
fn read_first(source: &Source, n: usize) -> Passed
    requires { Lent source.now.text.now source.now.marked.now n }
    ensures { FirstRead source.now.text.now n result }
{
    let mut passed = Passed::nothing(n);
    while let Some(t) = next_before(source, passed.next, |t| t.is(Sort::End)) {
        passed = passed.over(t, is_outer(t));
    }
    passed
}

// The stretch that ends the list: what is passed, up to where the section goes on; and the place where the list stops.
#[derive(Clone, Copy, Debug, PartialEq, Eq)]
struct Tail {
    passed: Passed,
    stop: usize,
}

fn read_tail(
    source: &Source,
    code: &mut [u32],
    n: usize,
    q: usize,
    at: usize,
    defined: bool,
) -> Tail
    requires { Tailed source.now.text.now source.now.marked.now code.old n q }
    ensures { TailRead source.now.text.now code.old code.new n q at defined result }
{
    let h = read_header(source, code, n, q);
    let b = next_element(source, h.passed.next);
    let sound = b.is_some() & (defined | h.some);
    let fault = lower(h.passed.fault, lower(h.first, (!sound).then_some(at)));
    let (stop, next) = match b {
        Some(b) => (b.at + 1, b.next),
        None => (source.text.len(), h.passed.next),
    };
    Tail {
        passed: Passed { next, fault },
        stop,
    }
}

// The list of macros and the section that were read: the count of macros; the cell of the section; and the lowest place at fault.
#[derive(Clone, Copy, Debug, PartialEq, Eq)]
pub struct Listing {
    pub count: usize,
    pub section: usize,
    pub fault: Fault,
}

// The section from place `n` on, with its record at the cell `q`. So many changes stand there already, before the cell `u`.
fn read_section(
    source: &Source,
    code: &mut [u32],
    q: usize,
    before: usize,
    u: usize,
    n: usize,
) -> Fault
    requires { Sectioned source.now.text.now source.now.marked.now code.old q before u n }
    ensures { SectionRead source.now.text.now code.old code.new q before n result }
{
    let r = read_changes(source, code, None, n, u);
    put(code, q + CodePlaces::SPAN, 0, source.text.len());
    put(code, q + CodePlaces::COUNTS, 0, before + r.count);
    r.passed.fault
}

// What follows the list, if it ends no statement.
fn follow_fault(source: &Source, n: usize) -> Fault
    requires { Lent source.now.text.now source.now.marked.now n }
    ensures { result ≡ fault_of (follow_faults (elements_from source.now.text.now n)) }
{
    let t = next_element(source, n)?;
    (!t.is(Sort::End)).then_some(t.at)
}

// The list that begins with this bracket, and the section behind it; `first` is the fault of the first statement. The list itself is a change of the
// section, the first: it goes with its brackets.
fn read_list(
    source: &Source,
    code: &mut [u32],
    firsts: &mut [u16],
    bracket: Element,
    first: Fault,
) -> Listing
    requires { Bracketed source.now.text.now source.now.marked.now code.old firsts.old bracket }
    ensures { ListRead source.now.text.now code.new firsts.new bracket first result }
{
    let at = bracket.at;
    let d = read_definitions(source, code, firsts, bracket.next);
    let e = read_tail(source, code, d.passed.next, d.used, at, d.defined);
    let next = e.passed.next;
    let before = lower(first, follow_fault(source, next));
    let u = d.used + CodePlaces::PARAMETERS;
    put_change(code, u, at, e.stop, Change::Nothing);
    let section = read_section(source, code, d.used, 1, u + CodePlaces::SMALL_SIZE, next);
    Listing {
        count: d.count,
        section: d.used,
        fault: lower(
            lower(lower(before, d.passed.fault), e.passed.fault),
            section,
        ),
    }
}

// The list of macros and the section of a text: into cells, with the first cell of each macro.
pub fn read_macros(source: &Source, code: &mut [u32], firsts: &mut [u16]) -> Listing
    requires { LentRows source.now.text.now source.now.marked.now code.old firsts.old }
    ensures { MacrosRead source.now.text.now code.new firsts.new result }
{
    let f = read_first(source, skip_ends(source, 0));
    if let Some(bracket) = next_open(source, skip_ends(source, f.next)) {
        return read_list(source, code, firsts, bracket, f.fault);
    }
    Listing {
        count: 0,
        section: 0,
        fault: read_section(source, code, 0, 0, CodePlaces::PARAMETERS, 0),
    }
}
