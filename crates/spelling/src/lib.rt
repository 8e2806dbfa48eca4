// The characters of an item: written out, and compared with others.
#![tactic(auto)]

ghost use Rattle.std.specs.Prelude.{◌≡◌, ◌+◌, ◌≤◌, length};
ghost use Rattle.lists.specs.Lists.{bytes_equal};
ghost use Rattle.scanner.specs.Below.Items.{char_of};
ghost use Rattle.lexer.specs.Tokens.{part};
ghost use Rattle.spelling.specs.Spelling.{Gives, Put, text_in, FitsText, TwoParts};

use scanner::{pair_of, takes_next};

// A byte of a text, as in scanner: the character that it gives, unless it is a star that takes the next.
#[tactic(auto, using(crate::proofs::Chars::pair_gives, crate::proofs::Chars::star_gives, crate::proofs::Chars::itself_gives))]
fn char_of(star: bool, b: u8) -> Option<u8>
    ensures { Gives star b result }
{
    if star {
        return Some(pair_of(b).unwrap_or(0));
    }
    if b == b'*' { None } else { Some(b) }
}

// Writes its character, if it gives one, to index `j`. The index behind it.
fn put_char(out: &mut [u8], j: usize, star: bool, b: u8) -> usize
    requires { j + length (char_of star b) ≤ length out.old }
    ensures { Put out.old j (char_of star b) result out.new }
{
    let Some(c) = char_of(star, b) else {
        return j;
    };
    out[j] = c;
    j + 1
}

// Writes the characters of a text whose bytes stand from `at` to `end`.
pub fn put_text(text: &[u8], at: usize, end: usize, out: &mut [u8]) -> usize
    requires { FitsText text.now at end out.old }
    ensures { Put out.old 0 (text_in text.now at end) result out.new }
{
    let mut star = false;
    let mut j: usize = 0;
    for b in &text[at..end] {
        j = put_char(out, j, star, *b);
        star = takes_next(star, *b);
    }
    j
}

// Whether the same `len` bytes stand at two places: two words of one length.
pub fn same_word(text: &[u8], a: usize, b: usize, len: usize) -> bool
    requires { TwoParts text.now a b len }
    ensures { result ≡ bytes_equal (part text.now a (a + len)) (part text.now b (b + len)) }
{
    text[a..a + len] == text[b..b + len]
}
