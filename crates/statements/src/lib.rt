// A statement's items and what is at fault in them: the token that ends it, the lower of two places at fault, and the verdict that they give.
#![tactic(auto)]

ghost use Rattle.std.specs.Prelude.{◌≡◌};
ghost use Rattle.statements.specs.Checks.{bad_token, token_verdict};
ghost use Rattle.statements.specs.Faults.{lower, no, decided, verdict_of, then, worse};
ghost use Rattle.statements.specs.Questions.{question_number};
ghost use Rattle.statements.specs.StatementAt.{stops};

use layout::from_language::Machine;
use lexer::Token;
use scanner::Sort;

// Of a question: the lowest place at fault, if any is.
pub type Fault = Option<usize>;

// The questions of load, by their numbers.
#[derive(Clone, Copy, PartialEq, Eq, PartialOrd, Ord, Debug)]
pub enum Question {
    Heading = 0,
    Count = 1,
    Argument = 2,
    RepeatedLabel = 6,
    SwitchLabels = 8,
    Operator = 10,
    Room = 11,
    Label = 12,
    Switch = 13,
    Byte = 14,
    Text = 15,
    Length = 16,
    End = 25,
    Size = 40,
    Macros = 64,
    Call = 65,
    Expansion = 66,
    LabelName = 70,
}

impl From<Question> for u8 {
    ghost use Rattle.std.specs.Prelude.{◌≡◌};
    ghost use Rattle.statements.specs.Questions.{question_number};

    ghost from_gives = { λ q n. n ≡ question_number q };

    fn from(q: Question) -> u8 {
        q as u8
    }
}

// The first question answered no, and its place. Of two the question of the lower number comes first, and of one question the lower place.
#[derive(Clone, Copy, PartialEq, Eq, PartialOrd, Ord, Debug)]
pub struct Refusal {
    pub question: Question,
    pub at: usize,
}

// Of some questions: all are answered yes, or the first no.
pub type Verdict = Result<(), Refusal>;

// The first question answered no by a text, and its line.
#[derive(Clone, Copy, PartialEq, Eq, Debug)]
pub struct Rejected {
    pub question: Question,
    pub line: u32,
}

// Whether a token's sort ends a statement: an end, or no item.
pub fn stops(sort: Option<Sort>) -> bool
    ensures { result ≡ stops sort }
{
    matches!(sort, None | Some(Sort::End))
}

// The lower of two places at fault.
pub fn lower(a: Fault, b: Fault) -> Fault
    ensures { result ≡ lower a b }
{
    match (a, b) {
        (None, f) | (f, None) => f,
        (Some(p), Some(q)) => Some(p.min(q)),
    }
}

// The first no, and its place.
pub fn refused(question: Question, at: usize) -> Verdict
    ensures { result ≡ no question at }
{
    Err(Refusal { question, at })
}

// The verdict of one question.
pub fn decide(question: Question, f: Fault) -> Verdict
    ensures { verdict_of result ≡ decided (question_number question) f }
{
    f.map_or(Ok(()), |at| refused(question, at))
}

// A verdict, and where it is yes another.
pub fn first_of(v: Verdict, w: Verdict) -> Verdict
    ensures { verdict_of result ≡ then (verdict_of v) (verdict_of w) }
{
    v.and(w)
}

fn is_bad_text(t: Token) -> bool
    ensures { result ≡ bad_token t }
{
    t.is(Sort::Text) & !(t.good & (0 < t.len))
}

// Questions 14, 15 and 16 of a token's item: the first of them that finds it at fault.
#[inline(always)]
fn item_verdict(t: Token) -> Verdict
    ensures { result ≡ token_verdict t }
{
    if t.is(Sort::Wrong) {
        return refused(Question::Byte, t.at);
    }
    if is_bad_text(t) {
        return refused(Question::Text, t.at);
    }
    if Machine::ITEM < t.len {
        return refused(Question::Length, t.at);
    }
    Ok(())
}

// The three questions of the items so far, with one more item.
// Inlined, and with the verdict so far handed back whole: a match over both copies it at each item, which takes 13.2 ns for 5.4.
#[inline(always)]
#[tactic(auto, using(crate::proofs::Orders::question_cmp))]
pub fn worse(v: Verdict, t: Token) -> Verdict
    ensures { result ≡ worse v (token_verdict t) }
{
    let Err(r) = item_verdict(t) else {
        return v;
    };
    match v {
        Ok(()) => Err(r),
        Err(q) => Err(q.min(r)),
    }
}
