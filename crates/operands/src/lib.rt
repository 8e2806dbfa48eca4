// What two operands of an instruction are, with questions 52 and 53, and components in the place of the first.
#![tactic(auto)]

ghost use Rattle.std.specs.Prelude.{◌≡◌, ◌<◌, true};
ghost use Rattle.language.specs.Limits as limit;
ghost use Rattle.machine.specs.Arguments.{listed_pair};
ghost use Rattle.layout.specs.Components.{components_in};
ghost use Rattle.state.specs.Working.{Stands};
ghost use Rattle.components.specs.Parts.{kind_number};
ghost use Rattle.instructions.specs.Questions.{told_by};
ghost use Rattle.instructions.specs.Does.{Tried};
ghost use Rattle.instructions.specs.Fronts.{front_part};
ghost use Rattle.operands.specs.Operands.{kinds_by, AsksKinds, OperandReadable, PairReadable, ReadsNumber, ReadsOffered, ReadsOperand, ReadsPair, replaced, Replaceable};

use components::{Amount, Kind, ZERO};
use instructions::{Question, Source};
use state::Working;

// The pairs of kinds that two operands may have.
#[derive(Clone, Copy, Debug, PartialEq, Eq)]
pub enum Kinds {
    Words,
    Numbers,
}

// The kind of a component, and a number that goes with it: the code of its value, that of 0 where it is no number; or how many characters it has.
// No enum with data: the kinds are compared, and the numbers handed on, whatever they are.
#[derive(Clone, Copy, Debug, PartialEq, Eq)]
pub struct Offered {
    pub kind: Kind,
    pub number: usize,
}

// The numbers that go with two components.
#[derive(Clone, Copy, Debug, PartialEq, Eq)]
pub struct Pair {
    pub left: usize,
    pub right: usize,
}

// Whether kinds `j` and `k` are one of the pairs.
fn takes(kinds: Kinds, j: Kind, k: Kind) -> bool
    ensures { result ≡ listed_pair (kinds_by kinds) (kind_number j) (kind_number k) }
{
    let wanted = match kinds {
        Kinds::Words => Kind::Word,
        Kinds::Numbers => Kind::Number,
    };
    (j == wanted) & (k == wanted)
}

// Whether two components are there (52), and of kinds that are taken (53): the numbers that go with them.
pub fn ask_kinds(kinds: Kinds, x: Option<Offered>, y: Option<Offered>) -> Result<Pair, Question>
    ensures { AsksKinds (kinds_by kinds) x y result }
{
    let (Some(x), Some(y)) = (x, y) else {
        return Err(Question::Missing);
    };
    if takes(kinds, x.kind, y.kind) {
        return Ok(Pair {
            left: x.number,
            right: y.number,
        });
    }
    Err(Question::Kind)
}

// The first component of expression `i`.
fn first_offered(state: &Working, i: usize) -> Option<Offered>
    requires { i < limit.expressions }
    ensures reads { ReadsOffered (front_part state.now.store i) result }
    ensures stands { Stands state.now }
{
    let x = state.expr_bytes(i);
    if x.is_empty() {
        return None;
    }
    let kind = components::kind_of(x);
    let number = if kind == Kind::Number {
        components::number_of(x)
    } else {
        ZERO
    };
    Some(Offered { kind, number })
}

// The first component of expression `i` as a number: its code.
pub fn first_number(state: &Working, i: usize) -> Result<usize, Question>
    requires { i < limit.expressions }
    ensures reads { ReadsNumber (front_part state.now.store i) result }
    ensures stands { Stands state.now }
{
    let x = instructions::front_of(state, i, Kind::Number)?;
    Ok(components::number_of(x))
}

// A second argument: B, a number or a text.
fn second_offered(state: &Working, arg: table::Argument) -> Option<Offered>
    requires { OperandReadable arg }
    ensures { ReadsOperand state.now.store arg result }
{
    match arg {
        table::Argument::Indexed(_, n) => first_offered(state, n - 1),
        table::Argument::Number(v) => Some(Offered {
            kind: Kind::Number,
            // `usize` has no `From<u32>`.
            number: v as usize,
        }),
        table::Argument::Text(_) => Some(Offered {
            kind: Kind::Word,
            number: ZERO,
        }),
        table::Argument::Class(_)
        | table::Argument::Nothing
        | table::Argument::Label(_)
        | table::Argument::Switch(_) => None,
    }
}

// The first component of expression `i` and a second argument, of kinds that are taken.
// All callers take numbers; the promise is for words too.
pub fn two_operands(
    state: &Working,
    i: usize,
    arg: table::Argument,
    kinds: Kinds,
) -> Result<Pair, Question>
    requires { PairReadable i arg }
    ensures reads { ReadsPair (kinds_by kinds) state.now.store i arg result }
    ensures stands { Stands state.now }
{
    let x = first_offered(state, i);
    let y = second_offered(state, arg);
    ask_kinds(kinds, x, y)
}

// Puts the components in `new`, which are so much, in front of an expression, where they have room, and removes the first component, which is `first`, or
// not.
pub fn replace(
    state: &mut Working,
    source: Source,
    first: Amount,
    new: &[u8],
    amount: Amount,
) -> Result<(), Question>
    requires { Replaceable state.old source.i first new.now amount }
    ensures { Tried state.old (told_by result) state.new true (replaced source.removes source.i (components_in new.now) state.old.store) }
{
    state.stands();
    if !instructions::has_room_after(state, source.freed(first), amount) {
        return Err(Question::Room);
    }
    state.past_parts(source, first);
    state.write_parts(source.front(), new, amount);
    Ok(())
}
