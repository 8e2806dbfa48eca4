// The converter: an accepted section in the other edition, "keyword by keyword, leaving labels, texts and comments".
#![tactic(auto)]

ghost use Rattle.std.specs.Prelude.{◌≡◌, true, ◌≤◌, ◌<◌, length};
ghost use Rattle.appending.specs.Appending.{Writes};
ghost use Rattle.calls.specs.Filling.{Gives};
ghost use Rattle.editions.specs.Convert.{respelled, convert_of};
ghost use Rattle.language.specs.Limits as limit;
ghost use Rattle.translating.specs.Translating.{taken, Passable, Passes};

use appending::append;
use calls::{Filled, Question};
use heads::is_operator;
use language::Machine;
use lexer::{Token, next_item};
use scanner::Sort;
use words::append_other;

// How far a text is read and written: the place from which the next item is sought, whether the operator of the statement there is still to come, the
// place up to which all is written, and how many bytes were.
#[derive(Clone, Copy, Debug, PartialEq, Eq)]
struct Pass {
    next: usize,
    awaited: bool,
    from: usize,
    count: usize,
}

// An item: the operator that was still to come is written in the other edition, behind the bytes before it. Any other item stays. None where it does not
// fit.
fn passed(text: &[u8], t: Token, p: Pass, made: &mut [u8]) -> Option<Pass>
    requires { Passable text.now t p made.old }
    ensures { Passes text.now t result made.new }
{
    let operates = is_operator(t);
    let is_awaited = p.awaited & operates & t.is(Sort::Word);
    if !is_awaited {
        return Some(Pass {
            next: t.next,
            awaited: t.is(Sort::End) | (p.awaited & !operates),
            ..p
        });
    }
    let from = p.from;
    let at = t.at;
    let end = t.end;
    let n = append(made, p.count, &text[from..at])?;
    let count = append_other(&text[at..end], made, n)?;
    Some(Pass {
        next: t.next,
        awaited: false,
        from: end,
        count,
    })
}

// Writes the text in the other edition, if it fits, and tells how long it is.
fn respell(text: &[u8], made: &mut [u8]) -> Option<usize>
    ensures { Writes (respelled text.now) result made.new }
{
    let mut p = Pass {
        next: 0,
        awaited: true,
        from: 0,
        count: 0,
    };
    let mut t = next_item(text, 0);
    while t.sort.is_some() {
        p = passed(text, t, p, made)?;
        t = next_item(text, p.next);
    }
    append(made, p.count, &text[p.from..])
}

// Whether a text loads and has no macro list. As it stands, one with a macro list is refused.
fn is_taken(text: &[u8]) -> bool
    requires { length text.now ≤ limit.text }
    ensures { result ≡ taken text.now }
{
    let mut table = [0u32; Machine::TABLE];
    loading::load_typed(text, &mut table).is_ok()
}

// Of a text that is taken. The buffer is written last: where there is no room it stays.
fn turn(text: &[u8], out: &mut [u8]) -> Filled
    requires { taken text.now ≡ true }
    ensures { Gives (convert_of (length out.old) text.now) result out.old out.new }
{
    let mut made = [0u8; Machine::TEXT];
    let Some(n) = respell(text, &mut made) else {
        return Err(Question::Conversion);
    };
    if out.len() < n {
        return Err(Question::Conversion);
    }
    out[..n].copy_from_slice(&made[..n]);
    Ok(n as u32)
}

// "does the text load, has it no macro list, and does the result fit the lent buffer and 32,768 bytes?"
pub fn convert(text: &[u8], out: &mut [u8]) -> Filled
    ensures { Gives (convert_of (length out.old) text.now) result out.old out.new }
{
    if Machine::TEXT < text.len() {
        return Err(Question::Conversion);
    }
    if !is_taken(text) {
        return Err(Question::Conversion);
    }
    turn(text, out)
}

// Of `loading`, passed on to the crates above.
pub mod from_loading {
    pub use loading::Loaded;
}
