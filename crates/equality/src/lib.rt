// Equality: RW of an expression, of its first component or any of them.
#![tactic(auto)]

ghost use Rattle.std.specs.Prelude.{◌≡◌};
ghost use Rattle.language.specs.Letters as letters;
ghost use Rattle.language.specs.Letters.{use_of};
ghost use Rattle.language.specs.Program.Arg.{nothing};
ghost use Rattle.language.specs.Program.Op.{RW};
ghost use Rattle.machine.specs.Arguments.{is_one};
ghost use Rattle.machine.specs.Effects.{row};
ghost use Rattle.packed.specs.Packed.{table_of};
ghost use Rattle.state.specs.Working.{HoldsState, on_store, nth, reading};
ghost use Rattle.table.specs.Denote.{letter_of, arg_of};
ghost use Rattle.instructions.specs.Questions.{told_by};
ghost use Rattle.instructions.specs.Does.{DoesFor};
ghost use Rattle.tests.specs.Prepares.{OtherLetter};
ghost use Rattle.equality.specs.Equality.{TestBy, OtherArgument, Singles, Alikeable, Unlike, related, settled, Finishable, Settleable, Relatable};

use components::Amount;
use instructions::{Bench, Question, Source};
use matching::Test;
use state::Working;
use table::Table;

// What a component is compared by: a class, or the components that the argument offers, which are in `given`.
pub fn test_of(arg: table::Argument, given: &[u8]) -> Test<'_>
    ensures { TestBy arg given.entry result }
{
    match arg {
        table::Argument::Class(mask) => Test::Class(mask),
        _ => Test::Among(given),
    }
}

fn is_one(l: table::Letter) -> bool
    requires { OtherLetter l }
    ensures { result ≡ is_one (use_of (letter_of l)).reading }
{
    !matches!(l, table::Letter::E | table::Letter::T)
}

// Whether an argument offers a single component.
pub fn is_single(arg: table::Argument) -> bool
    requires { OtherArgument arg }
    ensures { Singles arg result }
{
    match arg {
        table::Argument::Indexed(l, _) => is_one(l),
        table::Argument::Text(_) | table::Argument::Number(_) => true,
        table::Argument::Class(_)
        | table::Argument::Nothing
        | table::Argument::Label(_)
        | table::Argument::Switch(_) => false,
    }
}

// Whether an argument offers a single component of another kind than the one in front of `x`.
pub fn unlike(x: &[u8], given: &[u8], arg: table::Argument) -> bool
    requires { Alikeable x.now given.now arg }
    ensures { Unlike x.now given.now arg result }
{
    if !is_single(arg) {
        return false;
    }
    components::kind_of(x) != components::kind_of(given)
}

// Removes the first component of the source, which is so much, or not, where the relation holds; else H turns minus.
fn finish(state: &mut Working, source: Source, first: Amount, holds: bool)
    requires { Finishable state.old source.i first }
    ensures { HoldsState state.new (on_store (related holds source.removes source.i) state.old) }
{
    if holds {
        state.past_parts(source, first);
        return;
    }
    state.minus_unless(false);
}

// Asks the relation of the first component of the source and the components beside, and leaves what follows.
fn settle(state: &mut Working, given: &[u8], source: Source, arg: table::Argument)
    requires { Settleable state.old given.now source.i }
    ensures { HoldsState state.new (on_store (settled arg given.now source.removes source.i) state.old) }
{
    let x = state.expr_bytes(source.i);
    let first = Amount::of_first(x);
    let t = matching::count(&x[..first.bytes], test_of(arg, given));
    finish(state, source, first, t.reached);
}

// RW of an expression, by A or B.
pub fn rw_one(
    table: Table,
    bench: &mut Bench,
    source: Source,
    arg: table::Argument,
) -> Result<(), Question>
    requires { Relatable table.cells.now source.i arg }
    ensures { DoesFor bench.old.state (told_by result) bench.new.state (λ g ins. row g ins bench.old.state.store (nth (reading source.removes) source.i) (arg_of (table_of table.entry.cells.now) arg) nothing RW) }
{
    let held = comparands::put_comparand(table, &bench.state, &mut bench.given, arg);
    let x = bench.state.expr_bytes(source.i);
    if x.is_empty() {
        return Err(Question::Missing);
    }
    let len = held?;
    if unlike(x, &bench.given[..len], arg) {
        return Err(Question::Kind);
    }
    settle(&mut bench.state, &bench.given[..len], source, arg);
    Ok(())
}

// RW of expression `i`, by T: whether one of its components is equal.
pub fn rw_any(
    table: Table,
    bench: &mut Bench,
    i: usize,
    arg: table::Argument,
) -> Result<(), Question>
    requires { Relatable table.cells.now i arg }
    ensures { DoesFor bench.old.state (told_by result) bench.new.state (λ g ins. row g ins bench.old.state.store (nth letters.Letter.T i) (arg_of (table_of table.entry.cells.now) arg) nothing RW) }
{
    bench.state.stands();
    let len = comparands::put_comparand(table, &bench.state, &mut bench.given, arg)?;
    let x = bench.state.expr_bytes(i);
    let t = matching::count(x, test_of(arg, &bench.given[..len]));
    bench.state.minus_unless(t.reached);
    Ok(())
}
