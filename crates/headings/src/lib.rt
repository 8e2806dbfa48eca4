// What follows SEKCJA, KONS or KONP, or nothing where a statement is labels alone: read once, and what of it is at fault.
#![tactic(auto)]

ghost use Rattle.std.specs.Prelude.{◌≡◌};
ghost use Rattle.language.specs.Program.{identifier};
ghost use Rattle.lists.specs.Lists.{bytes_equal};
ghost use Rattle.statements.specs.Places.{InText};
ghost use Rattle.headings.specs.Headings.{is_kons, is_konp, Tails, no_items, Rests, name_fault, FirstIn, FirstLow, mark_first, right_first, name_by, Nameable, FirstTold, FollowsTold};

use drafts::{mark, word_of};
use heads::{Head, following, is_name, opens};
use lexer::{Token, next_item};
use scanner::Sort;
use statements::{Fault, Verdict, lower, stops, worse};
use words::Keyword;

// The first item, if there is one; the place of an item after it; questions 14, 15 and 16 of all items so far; where the next statement begins, unless
// this is the last.
#[derive(Clone, Copy, Debug, PartialEq, Eq)]
pub struct Rest {
    pub first: Option<Token>,
    pub more: Fault,
    pub worst: Verdict,
    pub next: Option<usize>,
}

#[tactic(auto, using(crate::proofs::Keywords::kons_rest))]
pub fn is_kons(k: Option<Keyword>) -> bool
    ensures { result ≡ is_kons k }
{
    matches!(k, Some(Keyword::Kons))
}

#[tactic(auto, using(crate::proofs::Keywords::konp_rest))]
pub fn is_konp(k: Option<Keyword>) -> bool
    ensures { result ≡ is_konp k }
{
    matches!(k, Some(Keyword::Konp))
}

// The items of a statement from its item `first` on.
// No iterator over the items, which would end without the token that ends the statement, and `next` is asked of that.
fn read_tail(text: &[u8], first: Token, worst: Verdict) -> Rest
    requires { InText text.now first }
    ensures { Tails text.now first worst result }
{
    let mut more = None;
    let mut w = worst;
    let mut t = next_item(text, first.next);
    while !stops(t.sort) {
        more = lower(more, Some(t.at));
        w = worse(w, t);
        t = next_item(text, t.next);
    }
    Rest {
        first: Some(first),
        more,
        worst: w,
        next: following(t),
    }
}

// No items before the token that ends the statement.
fn no_items(t: Token, worst: Verdict) -> Rest
    ensures { result ≡ no_items t worst }
{
    Rest {
        first: None,
        more: None,
        worst,
        next: following(t),
    }
}

// What follows the token `t`: the operator of a statement, or what ends it.
pub fn read_rest(text: &[u8], t: Token, worst: Verdict) -> Rest
    requires { InText text.now t }
    ensures { Rests text.now t worst result }
{
    if stops(t.sort) {
        return no_items(t, worst);
    }
    let first = next_item(text, t.next);
    if stops(first.sort) {
        return no_items(first, worst);
    }
    let w = worse(worst, first);
    read_tail(text, first, w)
}

// One name that follows the keyword at `at`; `right` tells whether the first item is it.
fn name_fault(rest: Rest, at: usize, right: bool) -> Fault
    ensures { result ≡ name_fault rest at right }
{
    let Some(first) = rest.first else {
        return Some(at);
    };
    lower(if right { first.colon } else { Some(first.at) }, rest.more)
}

// Whether the first item is a name.
fn is_name_first(text: &[u8], first: Option<Token>) -> bool
    requires { FirstIn text.now first }
    ensures { result ≡ right_first text.now identifier first }
{
    first.is_some_and(|t| is_name(text, t))
}

// The name that has a mark; nothing without one.
fn name_of(text: &[u8], mark: Option<u32>) -> &[u8]
    ensures { result.now ≡ name_by text.now mark }
{
    mark.map_or(&text[..0], |m| word_of(text, m as usize))
}

// Whether the first item is the name that has a mark.
fn is_named(text: &[u8], first: Option<Token>, mark: Option<u32>) -> bool
    requires { FirstIn text.now first }
    ensures { result ≡ right_first text.now (bytes_equal (name_by text.now mark)) first }
{
    let Some(t) = first else {
        return false;
    };
    t.is(Sort::Word) && name_of(text, mark) == &text[t.at..t.end]
}

// Question 00, of the first statement.
pub fn section_fault(text: &[u8], head: Head, rest: Rest) -> Fault
    requires { FirstIn text.now rest.first }
    ensures { FirstTold text.now head rest result }
{
    let op = head.op;
    if head.first != op.at {
        return Some(head.first);
    }
    if stops(op.sort) {
        return None;
    }
    if opens(head.keyword()) {
        return name_fault(rest, op.at, is_name_first(text, rest.first));
    }
    Some(op.at)
}

// What follows KONP, which is to be the name of the section, by its mark, or KONS, which is to be nothing.
pub fn after_fault(text: &[u8], head: Head, rest: Rest, section: Option<u32>) -> Fault
    requires { Nameable text.now rest.first section }
    ensures { FollowsTold text.now head rest section result }
{
    let at = head.op.at;
    let keyword = head.keyword();
    if is_konp(keyword) {
        return name_fault(rest, at, is_named(text, rest.first, section));
    }
    if !is_kons(keyword) {
        return None;
    }
    let first = rest.first?;
    lower(Some(first.at), rest.more)
}

// The mark of the first item, if there is one.
pub fn section_mark(rest: Rest) -> Option<u32>
    requires { FirstLow rest.first }
    ensures { result ≡ mark_first rest.first }
{
    let first = rest.first?;
    Some(mark(first.at, first.len))
}

// Of `heads`, passed on to the crates above.
pub mod from_heads {
    pub use heads::{Head, instr_of};
}
