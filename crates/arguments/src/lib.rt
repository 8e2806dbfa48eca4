// The arguments of an instruction: one pass over the items after its operator gives its faults and its arguments by value.
#![tactic(auto)]

ghost use Rattle.std.specs.Prelude.{◌≡◌, true, ◌≤◌};
ghost use Rattle.forms.specs.Letters.{letter};
ghost use Rattle.language.specs.Instructions.{number_of};
ghost use Rattle.language.specs.Operators.{op_by};
ghost use Rattle.language.specs.Program.{identifier};
ghost use Rattle.statements.specs.Places.{InText};
ghost use Rattle.arguments.specs.Arguments.{with_excess, missing_or, Accepts, Refusable, Refuses, ReadsArguments};
ghost use Rattle.arguments.specs.Valued.{no_value, argument_value, WordKind, ItemKind};

use drafts::mark;
use forms::{Form, Forms, Live, Taken, least, most, take_argument};
use heads::following;
use language::Operator;
use lexer::{Token, next_item};
use scanner::Sort;
use statements::{Fault, Verdict, lower, stops, worse};
use table::Letter;

// A text: the place of its item and that of its closing apostrophe.
#[derive(Clone, Copy, Debug, PartialEq, Eq)]
pub struct Quoted {
    pub at: usize,
    pub end: usize,
}

// An argument while a text is read. A label or a switch is the mark of its name, its place 64-fold and its length, as a draft's cells have it.
// A type of its own beside `table::Argument`: a text is not yet one of the table, and a type with a parameter for it would stand in all that reads a table.
#[derive(Clone, Copy, Debug, PartialEq, Eq)]
pub enum ReadArgument {
    Nothing,
    Indexed(Letter, usize),
    Label(usize),
    Switch(usize),
    Class(u8),
    Text(Quoted),
    Number(u32),
}

// An argument and the place of its item.
#[derive(Clone, Copy, Debug, PartialEq, Eq)]
pub struct Value {
    pub at: usize,
    pub argument: ReadArgument,
}

// An instruction's three arguments, Nothing where there is none, and the lowest places at fault of questions 01 and 02. Where one of them has a fault, the
// values may be any. Then questions 14 to 16 of its items, where the next statement begins, unless this is the last.
#[derive(Clone, Copy, Debug, PartialEq, Eq)]
pub struct Arguments {
    pub over: Fault,
    pub fault: Fault,
    pub values: [Value; 3],
    pub worst: Verdict,
    pub next: Option<usize>,
}

// What an item reads as: the set of its forms; and its own value as a text, a number, a class or an indexed letter, otherwise Nothing.
// No Option around `own`: ReadArgument has Nothing for none, and `value_by` hands `own` on as the argument.
#[derive(Clone, Copy, Debug, PartialEq, Eq)]
struct Kind {
    set: Forms,
    own: ReadArgument,
}

// For no argument. No Option: ReadArgument has Nothing for none, as the table has, and an Option would tell it a second time.
fn no_value() -> Value
    ensures { result ≡ no_value }
{
    Value {
        at: 0,
        argument: ReadArgument::Nothing,
    }
}

// The lowest place in excess so far, with one more where there is one.
fn with_excess(over: Fault, more: bool, at: usize) -> Fault
    ensures { result ≡ with_excess over more at }
{
    lower(over, more.then_some(at))
}

// What a word reads as that is a name.
fn name_kind(w: &[u8]) -> Kind
    requires { identifier w.now ≡ true }
    ensures { WordKind w.now result }
{
    if let Some(mask) = words::class_mask(w) {
        return Kind {
            set: Forms::NAMED_CLASS,
            own: ReadArgument::Class(mask),
        };
    }
    match words::indexed(w) {
        Some(read) => Kind {
            set: Forms::letter(read.letter).named(),
            own: ReadArgument::Indexed(read.letter, usize::from(read.index)),
        },
        None => Kind {
            set: Forms::NAME,
            own: ReadArgument::Nothing,
        },
    }
}

// What a word reads as.
fn word_kind(w: &[u8]) -> Kind
    ensures { WordKind w.now result }
{
    if words::identifier(w) {
        return name_kind(w);
    }
    match words::number_of(w) {
        Some(code) => Kind {
            set: Forms::NUMBER,
            own: ReadArgument::Number(code),
        },
        None => Kind {
            set: Forms::EMPTY,
            own: ReadArgument::Nothing,
        },
    }
}

// What an item reads as.
fn item_kind(text: &[u8], t: Token) -> Kind
    requires { InText text.now t }
    ensures { ItemKind text.now t result }
{
    if t.is(Sort::Text) {
        return Kind {
            set: Forms::TEXT,
            own: ReadArgument::Text(Quoted {
                at: t.at,
                end: t.end,
            }),
        };
    }
    if t.is(Sort::Word) {
        return word_kind(&text[t.at..t.end]);
    }
    Kind {
        set: Forms::EMPTY,
        own: ReadArgument::Nothing,
    }
}

// The value of an argument by the form that it is read by: the mark of a name, or its own value.
fn value_by(t: Token, form: Form, own: ReadArgument) -> ReadArgument
    requires { (t.at ≤ 32768) × (t.len ≤ 32768) }
    ensures { result ≡ argument_value t (letter form) own }
{
    let name = mark(t.at, t.len) as usize;
    match form {
        Form::Label => ReadArgument::Label(name),
        Form::Nazwa | Form::Indeks => ReadArgument::Switch(name),
        _ => own,
    }
}

// What takes an item as an argument at a place, by the forms that it reads as; or the place at fault: that of the item, or of a colon behind it.
// A match on the colon: by `map_or`, no proof was closed that tells the answer by whether there is one.
fn accepted(
    operator: Operator,
    live: Live,
    place: u8,
    t: Token,
    kinds: Forms,
) -> Result<Taken, usize>
    ensures { Accepts (number_of (op_by operator)) live place t kinds.bits result }
{
    if t.is(Sort::Colon) {
        return Err(t.at);
    }
    let taken = take_argument(u8::from(operator), live, place, kinds).ok_or(t.at)?;
    match t.colon {
        Some(colon) => Err(colon),
        None => Ok(taken),
    }
}

// The operator's place, where there are fewer arguments than an instruction needs; otherwise `fault`.
fn missing_or(operator: Operator, at: usize, count: usize, fault: Fault) -> Fault
    ensures { result ≡ missing_or (number_of (op_by operator)) at count fault }
{
    if count < usize::from(least(u8::from(operator))) {
        Some(at)
    } else {
        fault
    }
}

// Place `p` is at fault among the items from `n` on, which `place` arguments stand before; the operator stands at `at`. They are read to the end of the
// statement: how many arguments they are, those in excess, and questions 14 to 16.
// Seven parameters: a struct of them would be built for the one call, and read once.
// No iterator over the items, here and in `read_arguments`: it would end without the token that ends the statement, and `next` is asked of that.
fn refuse(
    text: &[u8],
    at: usize,
    operator: Operator,
    place: u8,
    n: usize,
    p: usize,
    worst: Verdict,
) -> Arguments
    requires { Refusable text.now (number_of (op_by operator)) place n }
    ensures { Refuses text.now at (number_of (op_by operator)) place n p worst result }
{
    let before = usize::from(place);
    let skip = usize::from(most(u8::from(operator))) - before;
    let mut over = None;
    let mut count: usize = 0;
    let mut low = worst;
    let mut t = next_item(text, n);
    while !stops(t.sort) {
        let argument = !t.is(Sort::Colon);
        over = with_excess(over, argument & (skip <= count), t.at);
        count += usize::from(argument);
        low = worse(low, t);
        t = next_item(text, t.next);
    }
    Arguments {
        over,
        fault: missing_or(operator, at, before + count, Some(p)),
        values: [no_value(); 3],
        worst: low,
        next: following(t),
    }
}

// The arguments of the instruction with the operator `operator`, which is the token `t`, and its questions 01 and 02; `worst` is that of the items up to the
// operator. Not by `while`, as `refuse` is: the place before an item is kept beside it, since on a fault `refuse` reads that item anew.
pub fn read_arguments(text: &[u8], t: Token, operator: Operator, worst: Verdict) -> Arguments
    requires { InText text.now t }
    ensures { ReadsArguments text.now t (number_of (op_by operator)) worst result }
{
    let mut live = Live::Both;
    let mut place: u8 = 0;
    let mut values = [no_value(); 3];
    let mut low = worst;
    let mut i = t.next;
    loop {
        let u = next_item(text, i);
        if stops(u.sort) {
            return Arguments {
                over: None,
                fault: missing_or(operator, t.at, usize::from(place), None),
                values,
                worst: low,
                next: following(u),
            };
        }
        let k = item_kind(text, u);
        let a = match accepted(operator, live, place, u, k.set) {
            Ok(a) => a,
            Err(p) => return refuse(text, t.at, operator, place, i, p, low),
        };
        values[usize::from(place)] = Value {
            at: u.at,
            argument: value_by(u, a.form, k.own),
        };
        live = a.live;
        place += 1;
        low = worse(low, u);
        i = u.next;
    }
}
