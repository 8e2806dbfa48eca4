// How far separators and comments, a word, and a text go in a text of bytes, from a place on.
#![tactic(auto)]

ghost use Rattle.std.specs.Prelude.{◌≡◌, not, ◌+◌, ◌≤◌, ◌<◌, length, position};
ghost use Rattle.syntax.specs.Items.{sort_of, same_sort, pair_of, ends_text, takes_next, allows};
ghost use Rattle.syntax.specs.Items.Sort.{word};
ghost use Rattle.scanner.specs.Sorts.{sort_in};
ghost use Rattle.scanner.specs.Scans.{if_pair, Closing, Passed, Skipped, WordEnd, Scanned};

use syntax::from_characters::{is_capital, is_digit, is_known};

// The sorts of items. A separator is no item.
#[derive(Clone, Copy, Debug, PartialEq, Eq)]
pub enum Sort {
    Word,
    Colon,
    End,
    Text,
    Wrong,
}

// The place where a comment begins that stays open.
#[derive(Clone, Copy, Debug, PartialEq, Eq)]
pub struct Unclosed(pub usize);

// The bytes of a text after its apostrophe: the place of its end, the count of its characters, whether all are allowed, and
// the place behind the apostrophe that closes it, if one does.
#[derive(Clone, Copy, Debug, PartialEq, Eq)]
pub struct Scan {
    pub end: usize,
    pub count: usize,
    pub good: bool,
    pub behind: Option<usize>,
}

// Whether a byte is a word's: by ranges and without a branch.
fn is_word(b: u8) -> bool
    ensures { result ≡ same_sort word (sort_of b) }
{
    is_capital(b) | is_digit(b) | (b == b'+') | (b == b'-')
}

// What a byte begins outside texts and comments, but for a separator.
#[tactic(auto, using(crate::proofs::Bytes::word_arm, crate::proofs::Bytes::sort_arm, crate::proofs::Bytes::sort_arm_two, crate::proofs::Bytes::sort_rest), unfolding(syntax::specs::Items::sort_of))]
pub fn sort_of(b: u8) -> Option<Sort>
    ensures { sort_in result ≡ sort_of b }
{
    if is_word(b) {
        return Some(Sort::Word);
    }
    Some(match b {
        b' ' | b',' => return None,
        b':' => Sort::Colon,
        b';' | b'\n' => Sort::End,
        b'\'' => Sort::Text,
        _ => Sort::Wrong,
    })
}

// The character of a starred pair by the byte after the star.
#[tactic(auto, using(crate::proofs::Bytes::pair_arm, crate::proofs::Bytes::pair_rest))]
pub fn pair_of(b: u8) -> Option<u8>
    ensures { result ≡ if_pair (pair_of b) }
{
    Some(match b {
        b'L' => b'\n',
        b',' => b'\'',
        b'*' => b'*',
        b'U' => b'[',
        b'V' => b']',
        b'W' => b'<',
        b'X' => b'>',
        b'Y' => b'?',
        b'Z' => 27,
        b'M' => 14,
        b'D' => 15,
        b'E' => 12,
        b'G' => b'\r',
        b'S' => 127,
        _ => return None,
    })
}

// A byte of a text. `star`: the byte before is a star that takes this one. Whether the byte may stand there,
fn allows(star: bool, b: u8) -> bool
    ensures { result ≡ allows star b }
{
    if star {
        return pair_of(b).is_some();
    }
    (b == b'*') | (is_known(b) & (b != b'\n') & (b != b'\''))
}

// whether it ends the text,
#[tactic(auto, unfolding(syntax::specs::Items::ends_text))]
fn ends_text(star: bool, b: u8) -> bool
    ensures { result ≡ ends_text star b }
{
    (b == b'\n') | ((b == b'\'') & !star)
}

// and whether it is a star that takes the next.
#[tactic(auto, unfolding(syntax::specs::Items::takes_next))]
pub fn takes_next(star: bool, b: u8) -> bool
    ensures { result ≡ takes_next star b }
{
    (b == b'*') & !star
}

// Inside a comment: the place behind its `*/`, if it is closed.
// A `for`, and no `windows(2).position(..)`: that is told by runs of windows, and no proof from those to the bytes of the text was closed.
// The text and a place in it are two parameters here and below, since most of the bodies use each by itself.
fn past_comment(text: &[u8], n: usize) -> Option<usize>
    requires { n ≤ length text.now }
    ensures { Closing text.now n result }
{
    for i in n..text.len() {
        if text[i..].starts_with(b"*/") {
            return Some(i + 2);
        }
    }
    None
}

// The place behind the separator or the comment at `n`, if one stands there.
fn pass(text: &[u8], n: usize) -> Result<Option<usize>, Unclosed>
    requires { n < length text.now }
    ensures { Passed text.now n result }
{
    let b = text[n];
    if (b == b' ') | (b == b',') {
        return Ok(Some(n + 1));
    }
    if !text[n..].starts_with(b"/*") {
        return Ok(None);
    }
    past_comment(text, n + 2).map(Some).ok_or(Unclosed(n))
}

// The place behind separators and comments.
// A `while`: each turn jumps behind a separator or a comment, so there is no range to run over; and `pass` is asked of a byte, so the end is asked here.
pub fn skip(text: &[u8], n: usize) -> Result<usize, Unclosed>
    requires { n ≤ length text.now }
    ensures { Skipped text.now n result }
{
    let mut i = n;
    while i < text.len() {
        match pass(text, i)? {
            Some(at) => i = at,
            None => return Ok(i),
        }
    }
    Ok(i)
}

// How many bytes stand before the first that is no word's, if there is one.
fn other_byte(rest: &[u8]) -> Option<usize>
    ensures { result ≡ position (λ b. not (same_sort word (sort_of b))) rest.now }
{
    rest.iter().position(|b| !is_word(*b))
}

// The place behind the bytes of a word from `n` on.
#[tactic(auto, using(crate::proofs::Loops::word_found, crate::proofs::Loops::word_none))]
pub fn word_end(text: &[u8], n: usize) -> usize
    requires { n ≤ length text.now }
    ensures { WordEnd text.now n result }
{
    other_byte(&text[n..]).map_or(text.len(), |k| n + k)
}

// The bytes of a text from `n`, the place after its apostrophe, on. Inlined, as the functions of `lexer` that call it.
#[inline(always)]
pub fn scan_text(text: &[u8], n: usize) -> Scan
    requires { n ≤ length text.now }
    ensures { Scanned text.now n result }
{
    let mut star = false;
    let mut count: usize = 0;
    let mut good = true;
    for i in n..text.len() {
        let b = text[i];
        if ends_text(star, b) {
            return Scan {
                end: i,
                count,
                good,
                behind: (b == b'\'').then_some(i + 1),
            };
        }
        good &= allows(star, b);
        star = takes_next(star, b);
        count += usize::from(!star);
    }
    Scan {
        end: text.len(),
        count,
        good,
        behind: None,
    }
}
