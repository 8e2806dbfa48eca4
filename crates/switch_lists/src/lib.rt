// The list of a switch: one pass over the items after its operator gives the faults of its questions, the marks of its labels and the places of its texts.
#![tactic(auto)]

ghost use Rattle.std.specs.Prelude.{◌≡◌, cond};
ghost use Rattle.std.specs.Prelude.{Some};
ghost use Rattle.statements.specs.StatementAt.{fault_of};
ghost use Rattle.switch_lists.specs.Switches.{colon_left, PutCell, PuttableItem, PutsItem, Listable, ReadsList};

use arguments::Quoted;
use drafts::mark;
use heads::{following, is_name};
use lexer::{Token, next_item};
use scanner::Sort;
use statements::{Fault, Verdict, lower, stops, worse};

// A list: the lowest place at fault of question 02, how many words it has, the first of them that is an entry in excess, the questions 14 to 16 with its
// items, and where the next statement begins, unless this is the last.
#[derive(Clone, Copy, Debug, PartialEq, Eq)]
pub struct Listed {
    pub fault: Fault,
    pub words: usize,
    pub over: Fault,
    pub worst: Verdict,
    pub next: Option<usize>,
}

// An item that another follows: whether it is a word, whether it is a name, and the place of its colon.
#[derive(Clone, Copy, Debug, PartialEq, Eq)]
struct Before {
    word: bool,
    name: bool,
    colon: Option<usize>,
}

// A name's colon is at fault, unless a text follows that may.
fn colon_left(before: Before, follows: bool) -> Fault
    ensures { result ≡ fault_of (colon_left before follows) }
{
    if before.name & !follows {
        before.colon
    } else {
        None
    }
}

// A list without items is at fault at its operator.
fn or_empty(empty: bool, at: usize, fault: Fault) -> Fault
    ensures { result ≡ cond empty (Some at) fault }
{
    if empty { Some(at) } else { fault }
}

// Puts a value where there is room for it.
// By the length and an index: after a write through `get_mut` a proof knows nothing of the elements.
fn put<T: Copy>(cells: &mut [T], k: usize, v: T)
    ensures { PutCell cells.old k v cells.new }
{
    if k < cells.len() {
        cells[k] = v;
    }
}

// A word is entry `k`: its mark, and no text. A text right behind a word belongs to the entry before.
fn put_item(t: Token, after: bool, k: usize, entries: &mut [u32], texts: &mut [Option<Quoted>])
    requires { PuttableItem t after k }
    ensures { PutsItem t after k entries.old texts.old entries.new texts.new }
{
    if t.is(Sort::Word) {
        put(entries, k, mark(t.at, t.len));
        put(texts, k, None);
        return;
    }
    if t.is(Sort::Text) & after {
        let text = Quoted {
            at: t.at,
            end: t.end,
        };
        put(texts, k - 1, Some(text));
    }
}

// The list of a switch with the operator `t`. The marks of its labels come to `entries`, and their texts to `texts`, as far as there is room.
// `named` is a flag, as `goes_by_name : Bool` is in the specification of a switch, which has two types of them.
// `entries` and `texts` are no row of pairs: the marks of all lists stay till the second pass, the texts are of this list alone.
// Each turn goes on behind the item that it read, so there is no range to run over; and no iterator over the items, nor a `while` up to the token that ends
// the statement: of that token too it is asked whether a colon is left before it.
pub fn read_list(
    text: &[u8],
    t: Token,
    named: bool,
    worst: Verdict,
    entries: &mut [u32],
    texts: &mut [Option<Quoted>],
) -> Listed
    requires { Listable text.now t }
    ensures { ReadsList text.now t named worst result entries.new texts.new }
{
    let first = t.next;
    let mut fault = None;
    let mut over = None;
    let mut words: usize = 0;
    let mut w = worst;
    let mut before = Before {
        word: false,
        name: false,
        colon: None,
    };
    let mut i = first;
    loop {
        let u = next_item(text, i);
        let follows = named & u.is(Sort::Text);
        let a = lower(fault, colon_left(before, follows));
        if stops(u.sort) {
            return Listed {
                fault: or_empty(i == first, t.at, a),
                words,
                over,
                worst: w,
                next: following(u),
            };
        }
        let name = is_name(text, u);
        let word = u.is(Sort::Word);
        put_item(u, before.word, words, entries, texts);
        let texted = follows & before.colon.is_some();
        fault = lower(a, (!(name | texted)).then_some(u.at));
        over = lower(over, (word & (entries.len() <= words)).then_some(u.at));
        w = worse(w, u);
        words += usize::from(word);
        before = Before {
            word,
            name,
            colon: u.colon,
        };
        i = u.next;
    }
}

// Of `arguments`, passed on to the crates above.
pub mod from_arguments {
    pub use arguments::{Quoted, read_arguments};
}
