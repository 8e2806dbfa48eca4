// What a relation compares with: the components that its second argument offers, put beside.
#![tactic(auto)]

ghost use Rattle.std.specs.Prelude.{[], ◌∷◌, ◌<◌, ◌≤◌, length};
ghost use Rattle.language.specs.Limits as limit;
ghost use Rattle.language.specs.Values as values;
ghost use Rattle.machine.specs.Arguments.{needs};
ghost use Rattle.layout.specs.Cells.{uncode};
ghost use Rattle.layout.specs.Places.{row};
ghost use Rattle.instructions.specs.Fronts.{front_part};
ghost use Rattle.tests.specs.Prepares.{Beside, PutBeside};
ghost use Rattle.comparands.specs.Offers.{LetterHoldable, Holdable, LetterOffers, ArgumentOffers};

use components::Amount;
use instructions::Question;
use state::Working;
use table::Table;

// N: the first component of expression `i`, a number.
fn put_count(state: &Working, given: &mut [u8], i: usize) -> Result<usize, Question>
    requires index { i < limit.expressions }
    requires room { row ≤ length given.old }
    ensures { PutBeside (needs 1 (front_part state.now.store i)) (front_part state.now.store i) given.new result }
{
    let code = operands::first_number(state, i)?;
    Ok(put_code(given, code))
}

// A number.
fn put_code(given: &mut [u8], code: usize) -> usize
    requires most { code ≤ 16777214 }
    requires room { row ≤ length given.old }
    ensures { Beside (values.Component.number (uncode code) ∷ []) given.new result }
{
    components::put_number(given, 0, code);
    Amount::SHORT.bytes
}

// A letter with index `n`.
fn put_letter(
    state: &Working,
    given: &mut [u8],
    l: table::Letter,
    n: usize,
) -> Result<usize, Question>
    requires holdable { LetterHoldable l n }
    requires room { row ≤ length given.old }
    ensures { LetterOffers state.now.store l n given.new result }
{
    let i = n - 1;
    match l {
        table::Letter::N => put_count(state, given, i),
        table::Letter::T | table::Letter::E => Ok(tests::put_all(state, given, i)),
        _ => tests::put_first(state, given, i),
    }
}

// Puts the components of a second argument in front of `given`: how many bytes they take; 52 or 53 where it asks for one that is not there. A class
// has none.
pub fn put_comparand(
    table: Table,
    state: &Working,
    given: &mut [u8],
    arg: table::Argument,
) -> Result<usize, Question>
    requires holdable { Holdable table.cells.now arg }
    requires room { row ≤ length given.old }
    ensures { ArgumentOffers table.entry.cells.now state.now.store arg given.new result }
{
    match arg {
        table::Argument::Indexed(l, n) => put_letter(state, given, l, n),
        table::Argument::Text(text) => Ok(tests::put_text(table, given, text)),
        // `usize` has no `From<u32>`.
        table::Argument::Number(v) => Ok(put_code(given, v as usize)),
        table::Argument::Class(_)
        | table::Argument::Nothing
        | table::Argument::Label(_)
        | table::Argument::Switch(_) => Ok(0),
    }
}
