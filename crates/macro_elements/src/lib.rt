// From a place in a text to the element that stands there and the place behind it.
#![tactic(auto)]

ghost use Rattle.std.specs.Prelude.{◌≡◌, Bool, List, ℕ, Some, ◌<◌, length};
ghost use Rattle.characters.specs.Characters.{is_digit};
ghost use Rattle.language.specs.Values.{unsigned, numeral};
ghost use Rattle.lexer.specs.Tokens.{part};
ghost use Rattle.lists.specs.Lists.{all};
ghost use Rattle.macros.specs.Elements as spec;
ghost use Rattle.macros.specs.Elements.{is_mark, is_identifier, is_listed};
ghost use Rattle.scanner.specs.Sorts.{sort_in};
ghost use Rattle.syntax.specs.Items.{same_sort};
ghost use Rattle.macro_elements.specs.ElementAt.{alone, argument_value, Lent, JoinedEnd, TextEnd, NextElement, NextBefore, Held};

use lexer::item_at;
use macro_marks::byte_at;
use scanner::{Sort, scan_text, word_end};

// A text, and its copy with a star for each joining apostrophe.
// The contracts ask `Lent` of it, in one clause with a place in the text: with the copy as a ghost field here, each would still have a clause for the
// place.
#[derive(Clone, Copy, Debug, PartialEq, Eq)]
pub struct Source<'a> {
    pub text: &'a [u8],
    pub marked: &'a [u8],
}

// An element: its sort and its first byte; the places where it begins, where the bytes that it is known by end, and from which
// the next one is sought; and the place where a parameter ends that an apostrophe at `end` joins to it.
#[derive(Clone, Copy, Debug, PartialEq, Eq)]
pub struct Element {
    pub sort: Sort,
    pub byte: u8,
    pub at: usize,
    pub end: usize,
    pub next: usize,
    pub joined: Option<usize>,
}

impl Element {
    // Whether the element is of a sort.
    pub fn is(self, sort: Sort) -> bool
        ensures { result ≡ same_sort (sort_in (Some sort)) (sort_in (Some self.sort)) }
    {
        self.sort == sort
    }
}

// The place behind the parameter that an apostrophe at `end` joins.
fn joined_end(source: &Source, end: usize) -> Option<usize>
    requires { Lent source.now.text.now source.now.marked.now end }
    ensures { JoinedEnd source.now.text.now source.now.marked.now end result }
{
    let Source { text, marked } = *source;
    if end < text.len() && text[end] == b'\'' && marked[end] == b'*' {
        return Some(word_end(marked, end + 1));
    }
    None
}

// The place behind the closing apostrophe of the text that begins at `at`, or the end.
fn text_end(text: &[u8], at: usize) -> usize
    requires { at < length text.now }
    ensures { TextEnd text.now at result }
{
    (scan_text(text, at + 1).end + 1).min(text.len())
}

// An element that nothing is joined to.
fn alone(sort: Sort, byte: u8, at: usize, end: usize, next: usize) -> Element
    ensures { result ≡ alone sort byte at end next }
{
    Element {
        sort,
        byte,
        at,
        end,
        next,
        joined: None,
    }
}

// The next element from place `n` on, if there is one.
pub fn next_element(source: &Source, n: usize) -> Option<Element>
    requires { Lent source.now.text.now source.now.marked.now n }
    ensures { NextElement source.now.text.now n result }
{
    let t = item_at(source.marked, n);
    let sort = t.sort?;
    let byte = byte_at(source.text, t.at);
    Some(match sort {
        Sort::Word => {
            let joined = joined_end(source, t.next);
            Element {
                sort,
                byte,
                at: t.at,
                end: t.next,
                next: joined.unwrap_or(t.next),
                joined,
            }
        }
        Sort::Text => alone(sort, byte, t.at, text_end(source.text, t.at), t.next),
        Sort::Colon | Sort::End | Sort::Wrong => alone(sort, byte, t.at, t.at, t.next),
    })
}

// The next element from place `n` on: none where that one passes the test.
pub fn next_before<F: Fn(Element) -> bool>(source: &Source, n: usize, ends: F) -> Option<Element>
    ghost test: { spec.Element → Bool }
    requires lent { Lent source.now.text.now source.now.marked.now n }
    requires callable { F.IsAlwaysCallable ends }
    requires tells { (t : Element) (b : Bool) → F.post ends t b → b ≡ test (argument_value source.now.text.now t) }
    ensures { NextBefore test source.now.text.now n result }
{
    next_element(source, n).filter(|t| !ends(*t))
}

// Whether an element is this star, bracket or joining apostrophe.
pub fn is_mark(b: u8, t: Element) -> bool
    ensures { (s : List ℕ) → result ≡ is_mark b (argument_value s t) }
{
    t.is(Sort::Wrong) && b == t.byte
}

// The bytes that an element is known by.
fn typed(text: &[u8], t: Element) -> &[u8]
    requires { Held text.now t }
    ensures { result.now ≡ part text.now t.at t.end }
{
    &text[t.at..t.end]
}

pub fn is_identifier(text: &[u8], t: Element) -> bool
    requires { Held text.now t }
    ensures { result ≡ is_identifier (argument_value text.now t) }
{
    t.is(Sort::Word) && words::identifier(typed(text, t))
}

fn digits(w: &[u8]) -> bool
    ensures { result ≡ all is_digit w.now }
{
    w.iter().all(|b| characters::is_digit(*b))
}

#[tactic(auto, using(crate::proofs::Bytes::some_digits))]
fn unsigned(w: &[u8]) -> bool
    ensures { result ≡ unsigned w.now }
{
    !w.is_empty() && digits(w)
}

// A test that takes digits of any count; `words::number_of` gives a value, and none for a number that is too great.
fn numeral(w: &[u8]) -> bool
    ensures { result ≡ numeral w.now }
{
    match w {
        [b'+' | b'-', digits @ ..] => unsigned(digits),
        _ => unsigned(w),
    }
}

// Whether an element is of a form that chapter 7 lists beside texts: an identifier or a number.
pub fn is_listed(text: &[u8], t: Element) -> bool
    requires { Held text.now t }
    ensures { result ≡ is_listed (argument_value text.now t) }
{
    t.is(Sort::Word) && (words::identifier(typed(text, t)) || numeral(typed(text, t)))
}
