// From a place in a text to the item that stands there and the place behind it.
#![tactic(auto)]

ghost use Rattle.std.specs.Prelude.{◌≡◌, Some, ◌+◌, ◌≤◌, ◌<◌, length};
ghost use Rattle.scanner.specs.Below.Items.{same_sort, line_at};
ghost use Rattle.scanner.specs.Sorts.{sort_in};
ghost use Rattle.lexer.specs.Tokens.{a_token, WordAt, TextAt, TokenAt, ColonAfter, NextToken, Movable, moved};

use scanner::{Sort, Unclosed, scan_text, skip, sort_of, word_end};

// An item: its sort, or none where the text has no item left; the place where it begins, the place where its own bytes end, which of a text is that of
// its closing apostrophe, and the place from which the next item is sought; the count of its characters; of a text whether it is closed and allowed; the
// place of the colon that follows a word.
#[derive(Clone, Copy, Debug, PartialEq, Eq)]
pub struct Token {
    pub sort: Option<Sort>,
    pub at: usize,
    pub end: usize,
    pub next: usize,
    pub len: usize,
    pub good: bool,
    pub colon: Option<usize>,
}

impl Token {
    // Whether the item is of a sort.
    pub fn is(self, sort: Sort) -> bool
        ensures { result ≡ same_sort (sort_in (Some sort)) (sort_in self.sort) }
    {
        self.sort == Some(sort)
    }
}

fn mark(sort: Option<Sort>, at: usize, end: usize) -> Token
    ensures { result ≡ a_token sort at end }
{
    Token {
        sort,
        at,
        end,
        next: end,
        len: 0,
        good: true,
        colon: None,
    }
}

// Inlined, as `text_at` and `scanner::scan_text` are: as calls, items are read a third slower.
#[inline(always)]
fn word_at(text: &[u8], at: usize) -> Token
    requires { at < length text.now }
    ensures { WordAt text.now at result }
{
    let end = word_end(text, at + 1);
    Token {
        len: end - at,
        ..mark(Some(Sort::Word), at, end)
    }
}

#[inline(always)]
fn text_at(text: &[u8], at: usize) -> Token
    requires { at < length text.now }
    ensures { TextAt text.now at result }
{
    let x = scan_text(text, at + 1);
    Token {
        next: x.behind.unwrap_or(x.end),
        len: x.count,
        good: x.good & x.behind.is_some(),
        ..mark(Some(Sort::Text), at, x.end)
    }
}

// The item that stands at place `n` or behind separators and comments there.
pub fn item_at(text: &[u8], n: usize) -> Token
    requires { n ≤ length text.now }
    ensures { TokenAt text.now n result }
{
    let at = match skip(text, n) {
        Ok(at) => at,
        Err(Unclosed(at)) => return mark(Some(Sort::Wrong), at, text.len()),
    };
    if text.len() <= at {
        return mark(None, at, at);
    }
    let Some(sort) = sort_of(text[at]) else {
        return mark(None, at, at + 1);
    };
    match sort {
        Sort::Word => return word_at(text, at),
        Sort::Text => return text_at(text, at),
        Sort::Colon | Sort::End | Sort::Wrong => return mark(Some(sort), at, at + 1),
    }
}

// What follows a word: the place of a colon, if there is one, and the place from which the next item is sought.
#[derive(Clone, Copy, Debug, PartialEq, Eq)]
struct After {
    colon: Option<usize>,
    next: usize,
}

fn colon_after(text: &[u8], n: usize) -> After
    requires { n ≤ length text.now }
    ensures { ColonAfter text.now n result }
{
    match skip(text, n) {
        Ok(at) if text[at..].starts_with(b":") => After {
            colon: Some(at),
            next: at + 1,
        },
        Ok(at) | Err(Unclosed(at)) => After {
            colon: None,
            next: at,
        },
    }
}

// The next item from place `n` on. A word and the colon after it are one.
// Inlined into the loops that read items: as a call, each item is copied once more.
#[inline(always)]
pub fn next_item(text: &[u8], n: usize) -> Token
    requires { n ≤ length text.now }
    ensures { NextToken text.now n result }
{
    let mut t = item_at(text, n);
    if t.is(Sort::Word) {
        let a = colon_after(text, t.next);
        t.next = a.next;
        t.colon = a.colon;
    }
    t
}

// A token of the rest of a text, counted from place `n` of the text on.
pub fn moved(t: Token, n: usize) -> Token
    requires { Movable n t }
    ensures { result ≡ moved n t }
{
    Token {
        at: n + t.at,
        end: n + t.end,
        next: n + t.next,
        colon: t.colon.map(|colon| n + colon),
        ..t
    }
}

// The line of a place, from the lines of a text's bytes; 1 where no byte stands.
pub fn line_at(lines: &[u16], at: usize) -> u16
    ensures { result ≡ line_at lines.now at }
{
    lines.get(at).copied().unwrap_or(1)
}
