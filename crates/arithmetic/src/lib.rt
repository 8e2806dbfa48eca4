// Arithmetic: DODAJ, ODEJMIJ, MNOZ and DZIEL. Numbers are their codes, the value with 8,388,607 added.
#![tactic(auto)]

ghost use Rattle.std.specs.Prelude.{◌≡◌, true, [], ◌∷◌, ◌+ℤ◌, ◌-ℤ◌, ◌*ℤ◌, ◌≤◌};
ghost use Rattle.std.specs.Int.Signed.{quot_z, rem_z};
ghost use Rattle.language.specs.Program.Arg.{nothing};
ghost use Rattle.language.specs.Program.Op.{DZIEL};
ghost use Rattle.language.specs.Values as values;
ghost use Rattle.layout.specs.Cells.{uncode};
ghost use Rattle.machine.specs.Effects.{row};
ghost use Rattle.state.specs.Working.{nth, reading};
ghost use Rattle.table.specs.Denote.{arg_of};
ghost use Rattle.instructions.specs.Questions.{told_by};
ghost use Rattle.instructions.specs.Does.{Tried};
ghost use Rattle.operands.specs.Operands.{PairReadable, replaced, DoesWith};
ghost use Rattle.arithmetic.specs.Arithmetic.{negative, signed, Coded, Divisible, Size, Codes, InRange, OneResult, TwoResults, op_of, value_of};

use components::{Amount, ZERO};
use instructions::{Bench, Question, Source};

// How much two numbers are.
const TWO: Amount = Amount {
    parts: 2,
    bytes: 2 * Amount::SHORT.bytes,
    chars: 0,
};

// What an instruction with one result makes of two numbers.
#[derive(Clone, Copy, Debug, PartialEq, Eq)]
pub enum Computed {
    Sum,
    Difference,
    Product,
}

fn is_negative(code: usize) -> bool
    ensures { result ≡ negative (uncode code) }
{
    code < ZERO
}

// The size of a number.
fn size(code: usize) -> usize
    requires { code ≤ 16777214 }
    ensures { Size code result }
{
    code.abs_diff(ZERO)
}

// The number of a sign and a size within the range.
fn with_sign(minus: bool, n: usize) -> usize
    requires { n ≤ 8388607 }
    ensures { Codes (signed minus n) result }
{
    if minus {
        return ZERO - n;
    }
    ZERO + n
}

// Two numbers and no `operands::Pair`: `difference` makes another second one, and a pair would be built to be taken apart.
fn sum(a: usize, b: usize) -> Result<usize, Question>
    requires { Coded a b }
    ensures { InRange (uncode a +ℤ uncode b) result }
{
    let s = a + b;
    if !(ZERO..=3 * ZERO).contains(&s) {
        return Err(Question::Range);
    }
    Ok(s - ZERO)
}

fn difference(a: usize, b: usize) -> Result<usize, Question>
    requires { Coded a b }
    ensures { InRange (uncode a -ℤ uncode b) result }
{
    sum(a, 2 * ZERO - b)
}

fn product(a: usize, b: usize) -> Result<usize, Question>
    requires { Coded a b }
    ensures { InRange (uncode a *ℤ uncode b) result }
{
    let n = size(a) * size(b);
    if ZERO < n {
        return Err(Question::Range);
    }
    Ok(with_sign(is_negative(a) != is_negative(b), n))
}

fn result_of(what: Computed, a: usize, b: usize) -> Result<usize, Question>
    requires { Coded a b }
    ensures { InRange (value_of what (uncode a) (uncode b)) result }
{
    match what {
        Computed::Sum => sum(a, b),
        Computed::Difference => difference(a, b),
        Computed::Product => product(a, b),
    }
}

// "DZIEL cuts toward zero."
fn quotient(a: usize, b: usize) -> usize
    requires { Divisible a b }
    ensures { Codes (quot_z (uncode a) (uncode b)) result }
{
    with_sign(is_negative(a) != is_negative(b), size(a) / size(b))
}

// The remainder has the dividend's sign.
fn remainder(a: usize, b: usize) -> usize
    requires { Divisible a b }
    ensures { Codes (rem_z (uncode a) (uncode b)) result }
{
    with_sign(is_negative(a), size(a) % size(b))
}

// Puts a number in the place of the first component of expression `i`, which is a number.
fn put_one(bench: &mut Bench, i: usize, code: usize) -> Result<(), Question>
    requires { OneResult bench.old.state i code }
    ensures { Tried bench.old.state (told_by result) bench.new.state true (replaced true i (values.Component.number (uncode code) ∷ []) bench.old.state.store) }
{
    components::put_number(&mut bench.hold, 0, code);
    let source = Source { removes: true, i };
    operands::replace(
        &mut bench.state,
        source,
        Amount::SHORT,
        &bench.hold[..Amount::SHORT.bytes],
        Amount::SHORT,
    )
}

// Puts two numbers in the place of the first component of expression `i`, which is a number.
// Apart from `put_one`: a loop over the numbers would need an invariant over the bytes written so far.
fn put_two(bench: &mut Bench, i: usize, first: usize, second: usize) -> Result<(), Question>
    requires { TwoResults bench.old.state i first second }
    ensures { Tried bench.old.state (told_by result) bench.new.state true (replaced true i (values.Component.number (uncode first) ∷ values.Component.number (uncode second) ∷ []) bench.old.state.store) }
{
    components::put_number(&mut bench.hold, 0, first);
    components::put_number(&mut bench.hold, Amount::SHORT.bytes, second);
    let source = Source { removes: true, i };
    operands::replace(
        &mut bench.state,
        source,
        Amount::SHORT,
        &bench.hold[..TWO.bytes],
        TWO,
    )
}

// DODAJ, ODEJMIJ or MNOZ of expression `i`.
pub fn compute(
    bench: &mut Bench,
    i: usize,
    arg: table::Argument,
    what: Computed,
) -> Result<(), Question>
    requires { PairReadable i arg }
    ensures { DoesWith bench.old.state (told_by result) bench.new.state (λ c g ins. row g ins bench.old.state.store (nth (reading true) i) (arg_of c arg) nothing (op_of what)) }
{
    let p = operands::two_operands(&bench.state, i, arg, operands::Kinds::Numbers)?;
    let z = result_of(what, p.left, p.right)?;
    put_one(bench, i, z)
}

// DZIEL of expression `i`.
pub fn dziel(bench: &mut Bench, i: usize, arg: table::Argument) -> Result<(), Question>
    requires { PairReadable i arg }
    ensures { DoesWith bench.old.state (told_by result) bench.new.state (λ c g ins. row g ins bench.old.state.store (nth (reading true) i) (arg_of c arg) nothing DZIEL) }
{
    let p = operands::two_operands(&bench.state, i, arg, operands::Kinds::Numbers)?;
    if p.right == ZERO {
        return Err(Question::Divisor);
    }
    let left = remainder(p.left, p.right);
    put_two(bench, i, left, quotient(p.left, p.right))
}
