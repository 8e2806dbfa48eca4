// Reading the values of a test: "A move first reads its test's values".
#![tactic(auto)]

ghost use Rattle.std.specs.Prelude.{[], ◌∷◌, ◌<◌, ◌≤◌, length};
ghost use Rattle.language.specs.Letters as letters;
ghost use Rattle.language.specs.Limits as limit;
ghost use Rattle.language.specs.Program.Arg.{letter};
ghost use Rattle.language.specs.Values as values;
ghost use Rattle.machine.specs.Arguments.{expr, present};
ghost use Rattle.layout.specs.Places.{row};
ghost use Rattle.table.specs.Below.Packed.{table_of};
ghost use Rattle.state.specs.Working.{nth};
ghost use Rattle.instructions.specs.Fronts.{front_part};
ghost use Rattle.table.specs.Good.{GoodText};
ghost use Rattle.table.specs.Denote.{letter_of, arg_of, text_of};
ghost use Rattle.tests.specs.Prepares.{LetterReadable, TestReadable, Beside, PutBeside, Prepares, beside_size, TestOf, NumberPrepares, CountPrepares};

use components::{Kind, ZERO};
use instructions::Question;
use language::Machine;
use matching::Test;
use state::Working;
use table::{Table, TextRef};

// A test as its argument makes it. What `Among` compares with are the components in the first bytes of the row `given`, so many.
// A count and no slice: the row is a field of the bench, which the caller keeps.
// Not one `Test<B>` with `matching::Test`: `until` and all that go by it speak of a test with its bytes, and a type argument would stand in each of them.
#[derive(Clone, Copy, Debug, PartialEq, Eq)]
pub enum Prepared {
    All,
    Count(usize),
    Class(u8),
    Among(usize),
}

impl Prepared {
    // The test, with the row that its bytes stand in.
    pub fn with(self, given: &[u8]) -> Test<'_>
        requires { beside_size self ≤ length given.now }
        ensures { TestOf self given.now result }
    {
        match self {
            Prepared::All => Test::All,
            Prepared::Count(n) => Test::Count(n),
            Prepared::Class(mask) => Test::Class(mask),
            Prepared::Among(n) => Test::Among(&given[..n]),
        }
    }
}

// Puts the first component of expression `i` in front of `given`.
pub fn put_first(state: &Working, given: &mut [u8], i: usize) -> Result<usize, Question>
    requires index { i < limit.expressions }
    requires room { row ≤ length given.old }
    ensures { PutBeside (present (front_part state.now.store i)) (front_part state.now.store i) given.new result }
{
    let x = state.expr_bytes(i);
    if x.is_empty() {
        return Err(Question::Missing);
    }
    let n = components::size_by(x[0]);
    cells::put(given, 0, &x[..n]);
    Ok(n)
}

// Puts all components of expression `i` in front of `given`.
pub fn put_all(state: &Working, given: &mut [u8], i: usize) -> usize
    requires index { i < limit.expressions }
    requires room { row ≤ length given.old }
    ensures { Beside (expr state.now.store (nth letters.Letter.E i)) given.new result }
{
    let x = state.expr_bytes(i);
    cells::put(given, 0, x);
    x.len()
}

// Puts a text as a word in front of `given`.
pub fn put_text(table: Table, given: &mut [u8], text: TextRef) -> usize
    requires good { GoodText table.cells.now text }
    requires room { row ≤ length given.old }
    ensures { Beside (values.Component.word (text_of (table_of table.entry.cells.now) text) ∷ []) given.new result }
{
    let mut w = [0u8; Machine::ITEM];
    let n = table.put_text(text, &mut w);
    components::put_word(given, 0, &w[..n]);
    1 + n
}

// B: the first component of expression `i`.
fn prepare_first(state: &Working, given: &mut [u8], i: usize) -> Result<Prepared, Question>
    requires index { i < limit.expressions }
    requires room { row ≤ length given.old }
    ensures { Prepares state.now.store (nth letters.Letter.B i) given.new result }
{
    let len = put_first(state, given, i)?;
    Ok(Prepared::Among(len))
}

// The number of this code as a count.
fn prepare_number(code: usize) -> Result<Prepared, Question>
    ensures { NumberPrepares code result }
{
    let Some(n) = code.checked_sub(ZERO) else {
        return Err(Question::Range);
    };
    Ok(Prepared::Count(n))
}

// N: the first component of expression `i` as a count.
fn prepare_count(state: &Working, i: usize) -> Result<Prepared, Question>
    requires { i < limit.expressions }
    ensures { CountPrepares state.now.store i result }
{
    let x = instructions::front_of(state, i, Kind::Number)?;
    prepare_number(components::number_of(x))
}

// A letter with index `n`.
fn prepare_letter(
    state: &Working,
    given: &mut [u8],
    l: table::Letter,
    n: usize,
) -> Result<Prepared, Question>
    requires readable { LetterReadable l n }
    requires room { row ≤ length given.old }
    ensures { Prepares state.now.store (letter (letter_of l) n) given.new result }
{
    let i = n - 1;
    match l {
        table::Letter::N => prepare_count(state, i),
        table::Letter::T => Ok(Prepared::Among(put_all(state, given, i))),
        _ => prepare_first(state, given, i),
    }
}

// What a test's argument asks (52, 53, 54), and the test that it makes. The bytes beside it are put in front of `given`.
pub fn prepare(
    table: Table,
    state: &Working,
    given: &mut [u8],
    arg: table::Argument,
) -> Result<Prepared, Question>
    requires readable { TestReadable table.cells.now arg }
    requires room { row ≤ length given.old }
    ensures { Prepares state.now.store (arg_of (table_of table.entry.cells.now) arg) given.new result }
{
    match arg {
        table::Argument::Indexed(l, n) => prepare_letter(state, given, l, n),
        table::Argument::Class(mask) => Ok(Prepared::Class(mask)),
        table::Argument::Text(text) => Ok(Prepared::Among(put_text(table, given, text))),
        // From does not turn a u32 into a usize.
        table::Argument::Number(v) => prepare_number(v as usize),
        table::Argument::Nothing | table::Argument::Label(_) | table::Argument::Switch(_) => {
            Ok(Prepared::All)
        }
    }
}
