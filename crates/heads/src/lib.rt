// The head of a statement: its labels and its operator.
#![tactic(auto)]

ghost use Rattle.std.specs.Prelude.{◌≡◌, cond, [], ◌∷◌};
ghost use Rattle.lexer.specs.Tokens.{item_of, Stands};
ghost use Rattle.statements.specs.StatementAt.{fault_of};
ghost use Rattle.scanner.specs.Below.Statements.{is_name};
ghost use Rattle.words.specs.Keywords.{keyword_known, is_english, is_own};
ghost use Rattle.heads.specs.Heads.{following, known_item, operates, opens, bars, is_switch, is_by_name, instr_by, Headable, Heads};

use drafts::mark;
use language::{Machine, Operator};
use lexer::{Token, moved, next_item};
use scanner::Sort;
use statements::{Fault, Verdict, lower, stops, worse};
use words::{Edition, Keyword, Known};

// The place of the first item, or of what ends the statement; the first item in front of the operator that is no name; how many names there are with
// its labels; questions 14, 15 and 16 of the items up to the operator; the operator, or the token that ends the statement; what is known of the operator, if
// it is a keyword. The items after it are read from `op.next` on.
#[derive(Clone, Copy, Debug, PartialEq, Eq)]
pub struct Head {
    pub first: usize,
    pub fault: Fault,
    pub names: usize,
    pub worst: Verdict,
    pub op: Token,
    pub known: Option<Known>,
}

impl Head {
    pub fn keyword(self) -> Option<Keyword>
        ensures { result ≡ keyword_known self.known }
    {
        self.known.map(|k| k.keyword)
    }

    // Whether the operator's word is an edition's own.
    pub fn is_own(self, edition: Edition) -> bool
        ensures { result ≡ is_own (is_english edition) self.known }
    {
        self.known.is_some_and(|k| k.is_own(edition))
    }
}

// Whether a token is an operator, and does not stand in front of one.
pub fn is_operator(t: Token) -> bool
    ensures { result ≡ operates t }
{
    !(t.is(Sort::Colon) | t.colon.is_some())
}

pub fn is_name(text: &[u8], t: Token) -> bool
    requires { Stands text.now t }
    ensures { result ≡ is_name (item_of text.now t) }
{
    t.is(Sort::Word) && words::identifier(&text[t.at..t.end])
}

fn keyword_at(text: &[u8], t: Token) -> Option<Known>
    requires { Stands text.now t }
    ensures { result ≡ known_item (item_of text.now t) }
{
    if t.is(Sort::Word) {
        return words::keyword_of(&text[t.at..t.end]);
    }
    None
}

// SEKCJA, the only operator of a first statement.
#[tactic(auto, using(crate::proofs::Keywords::opens_rest))]
pub fn opens(k: Option<Keyword>) -> bool
    ensures { result ≡ opens k }
{
    matches!(k, Some(Keyword::Sekcja))
}

// No operator of any other statement.
#[tactic(auto, using(crate::proofs::Keywords::bars_here, crate::proofs::Keywords::bars_rest))]
pub fn bars(k: Option<Keyword>) -> bool
    ensures { result ≡ bars k }
{
    matches!(k, None | Some(Keyword::Sekcja))
}

// INDEKS or NAZWA.
#[tactic(auto, using(crate::proofs::Keywords::switch_rest))]
pub fn is_switch(k: Option<Keyword>) -> bool
    ensures { result ≡ is_switch k }
{
    matches!(k, Some(Keyword::Switch(_)))
}

// NAZWA.
#[tactic(auto, using(crate::proofs::Keywords::by_name_rest))]
pub fn is_by_name(k: Option<Keyword>) -> bool
    ensures { result ≡ is_by_name k }
{
    matches!(k, Some(Keyword::Switch(true)))
}

// An instruction's operator.
#[tactic(auto, using(crate::proofs::Keywords::instr_rest))]
pub fn instr_of(k: Option<Keyword>) -> Option<Operator>
    ensures { result ≡ instr_by k }
{
    match k {
        Some(Keyword::Instr(op)) => Some(op),
        _ => None,
    }
}

// Whether a token is no name; it stands at `at` of the whole text.
fn name_fault(text: &[u8], t: Token, at: usize) -> Fault
    requires { Stands text.now t }
    ensures { result ≡ fault_of (cond (is_name (item_of text.now t)) [] (at ∷ [])) }
{
    (!is_name(text, t)).then_some(at)
}

// The place behind a token that ends a statement, unless the text ends with it.
pub fn following(t: Token) -> Option<usize>
    ensures { result ≡ following t }
{
    t.sort.is_some().then_some(t.next)
}

// The head of the statement with which the unread rest of a text begins, at place `n` of the text. The marks of its labels come behind the first `count`
// names.
// The whole row and a count: the questions on labels that come next read the marks before these too, by their indices in the row.
// Each turn goes on behind the item that it read, so there is no range to run over; and no iterator over the items, since the head holds the operator or
// the token that ends the statement, at which such a walk would end without it. No `while` either: of that token the questions are asked too.
pub fn read_head(rest: &[u8], n: usize, names: &mut [u32; Machine::TEXT], count: usize) -> Head
    requires { Headable rest.now n count }
    ensures { Heads rest.now n count names.old names.new result }
{
    let mut t = next_item(rest, 0);
    let first = n + t.at;
    let mut fault = None;
    let mut c = count;
    let mut worst = Ok(());
    loop {
        let o = moved(t, n);
        worst = worse(worst, o);
        if stops(o.sort) | is_operator(o) {
            return Head {
                first,
                fault,
                names: c,
                worst,
                op: o,
                known: keyword_at(rest, t),
            };
        }
        fault = lower(fault, name_fault(rest, t, o.at));
        names[c] = mark(o.at, o.len);
        c += usize::from(o.is(Sort::Word));
        t = next_item(rest, t.next);
    }
}
