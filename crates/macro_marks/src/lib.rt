// Which texts have macros, and where their joining apostrophes stand.
#![tactic(auto)]

ghost use Rattle.std.specs.Prelude.{◌≡◌, ◌&&◌, ◌≤◌, length, position};
ghost use Rattle.lexer.specs.Tokens.{chars_of, Stands};
ghost use Rattle.lists.specs.Lists.{ahead, any, among, bytes_equal};
ghost use Rattle.macros.specs.Marks.{byte_at, has_macros, marked};
ghost use Rattle.scanner.specs.Sorts.{sort_in};
ghost use Rattle.syntax.specs.Items.{same_sort};
ghost use Rattle.syntax.specs.Items.Sort.{word, wrong};
ghost use Rattle.macro_marks.specs.Parts.{ended, opened, closed, passed, part_behind, begins_mark, Plain, parameters, parameters_of, joined, NextItem, Joinable, JoinableIn};

use lexer::{Token, item_at};
use scanner::{Sort, word_end};

// Where the reader stands in the list of macros: before the first statement; in it; behind it, where the list may begin; after the
// list, or where there is none; in the list but in no body, and in a body, each with the place where the macro's header begins.
// There are six parts, and two of them have a place, so an Option does not tell them apart.
#[derive(Clone, Copy, Debug, PartialEq, Eq)]
enum ListPart {
    Before,
    First,
    AtList,
    After,
    Header(usize),
    Body(usize),
}

// The byte at a place; past the end a line feed.
pub fn byte_at(text: &[u8], p: usize) -> u8
    ensures { result ≡ byte_at text.now p }
{
    text.get(p).copied().unwrap_or(b'\n')
}

// Whether a byte may begin a text, a comment, or an item of macros.
fn may_begin(b: u8) -> bool
    ensures { result ≡ begins_mark b }
{
    b == b'\'' || b == b'/' || b"*()".contains(&b)
}

fn first_mark(text: &[u8]) -> Option<usize>
    ensures { result ≡ position begins_mark text.now }
{
    text.iter().position(|b| may_begin(*b))
}

// How many bytes stand before the first such byte.
#[tactic(auto, using(lists::specs::SearchLaws::position_or_length))]
fn ordinary(text: &[u8]) -> usize
    ensures { result ≡ ahead begins_mark text.now }
{
    first_mark(text).unwrap_or(text.len())
}

// The place of the first such byte from `n` on.
fn plain_end(text: &[u8], n: usize) -> usize
    requires { n ≤ length text.now }
    ensures { Plain text.now n result }
{
    n + ordinary(&text[n..])
}

// Whether an item that begins with the byte `b` is one of these marks of macros.
pub fn is_mark(t: Token, b: u8, marks: &[u8]) -> bool
    ensures { result ≡ same_sort wrong (sort_in t.sort) && among b marks.now }
{
    t.is(Sort::Wrong) && marks.contains(&b)
}

// The next item from place `n` on, if there is one.
pub fn next_item(text: &[u8], n: usize) -> Option<Token>
    requires { n ≤ length text.now }
    ensures { NextItem text.now n result }
{
    let t = item_at(text, n);
    t.sort.is_some().then_some(t)
}

// Whether a star or a round bracket stands outside texts and comments.
pub fn has_macros(text: &[u8]) -> bool
    ensures { result ≡ has_macros text.now }
{
    let mut n: usize = 0;
    while let Some(t) = next_item(text, plain_end(text, n)) {
        if is_mark(t, byte_at(text, t.at), b"*()") {
            return true;
        }
        n = t.next;
    }
    false
}

// The part behind the end of a statement,
fn ended(p: ListPart) -> ListPart
    ensures { result ≡ ended p }
{
    match p {
        ListPart::First => ListPart::AtList,
        other => other,
    }
}

// behind an opening bracket, with the place behind it,
fn opened(p: ListPart, next: usize) -> ListPart
    ensures { result ≡ opened p next }
{
    match p {
        ListPart::Before => ListPart::First,
        ListPart::AtList => ListPart::Header(next),
        ListPart::Header(h) => ListPart::Body(h),
        other => other,
    }
}

// behind a closing one,
fn closed(p: ListPart, next: usize) -> ListPart
    ensures { result ≡ closed p next }
{
    match p {
        ListPart::Before | ListPart::First => ListPart::First,
        ListPart::AtList | ListPart::After | ListPart::Header(_) => ListPart::After,
        ListPart::Body(_) => ListPart::Header(next),
    }
}

// and behind any other item.
fn passed(p: ListPart) -> ListPart
    ensures { result ≡ passed p }
{
    match p {
        ListPart::Before => ListPart::First,
        ListPart::AtList => ListPart::After,
        other => other,
    }
}

// The part behind an item that begins with the byte `b`.
fn part_behind(p: ListPart, t: Token, b: u8) -> ListPart
    ensures { result ≡ part_behind p t.sort b t.next }
{
    match (t.sort, b) {
        (Some(Sort::End), _) => ended(p),
        (Some(Sort::Wrong), b'(') => opened(p, t.next),
        (Some(Sort::Wrong), b')') => closed(p, t.next),
        _ => passed(p),
    }
}

// Whether a token is this name.
fn is_word(text: &[u8], t: Token, name: &[u8]) -> bool
    requires { Stands text.now t }
    ensures { result ≡ same_sort word (sort_in t.sort) && bytes_equal name.now (chars_of text.now t) }
{
    t.is(Sort::Word) && name == &text[t.at..t.end]
}

// Whether a name is a parameter of the macro whose header begins at `header`.
#[tactic(auto, using(crate::specs::ItemLaws::next_shorter))]
fn is_parameter(text: &[u8], header: usize, name: &[u8]) -> bool
    requires { header ≤ length text.now }
    ensures { result ≡ any (bytes_equal name.now) (parameters text.now header) }
{
    let mut named = false;
    let mut n = header;
    while let Some(t) = next_item(text, n) {
        if is_mark(t, byte_at(text, t.at), b"()") {
            return false;
        }
        if named && is_word(text, t, name) {
            return true;
        }
        named |= t.is(Sort::Word);
        n = t.next;
    }
    false
}

// In the body of the macro whose header begins at `header`: the place behind the parameter that an apostrophe joins to a token.
fn joined_in_body(text: &[u8], header: usize, t: Token) -> Option<usize>
    requires { Joinable text.now header t }
    ensures { result ≡ joined text.now (parameters text.now header) t }
{
    if !t.is(Sort::Word) {
        return None;
    }
    if byte_at(text, t.next) != b'\'' {
        return None;
    }
    if !words::identifier(&text[t.at..t.end]) {
        return None;
    }
    let end = word_end(text, t.next + 1);
    let name = &text[t.next + 1..end];
    if !words::identifier(name) {
        return None;
    }
    is_parameter(text, header, name).then_some(end)
}

// The same in any part: only in a body is something joined.
fn joined(text: &[u8], p: ListPart, t: Token) -> Option<usize>
    requires { JoinableIn text.now p t }
    ensures { result ≡ joined text.now (parameters_of text.now p) t }
{
    match p {
        ListPart::Body(h) => joined_in_body(text, h, t),
        _ => None,
    }
}

// The text with a star for each joining apostrophe.
#[tactic(auto, using(crate::specs::ItemLaws::next_shorter))]
pub fn mark_joins(text: &[u8], out: &mut [u8])
    requires { length out.old ≡ length text.now }
    ensures { out.new ≡ marked text.now }
{
    out.copy_from_slice(text);
    let mut p = ListPart::Before;
    let mut n = 0;
    while let Some(t) = next_item(text, n) {
        let joined = joined(text, p, t);
        p = part_behind(p, t, byte_at(text, t.at));
        n = t.next;
        if let Some(end) = joined {
            out[t.next] = b'*';
            n = end;
        }
    }
}
