// RZ: the record after a file's pointer, compared with a component or, by E, with a whole expression.
#![tactic(auto)]

ghost use Rattle.std.specs.Prelude.{◌≡◌, ◌<◌};
ghost use Rattle.language.specs.Letters as letters;
ghost use Rattle.language.specs.Letters.{use_of};
ghost use Rattle.language.specs.Limits as limit;
ghost use Rattle.language.specs.Program.Arg.{nothing};
ghost use Rattle.language.specs.Program.Op.{RZ};
ghost use Rattle.machine.specs.Arguments.{is_whole};
ghost use Rattle.machine.specs.Effects.{row};
ghost use Rattle.packed.specs.Packed.{table_of};
ghost use Rattle.state.specs.Working.{nth};
ghost use Rattle.table.specs.Denote.{letter_of, arg_of};
ghost use Rattle.instructions.specs.Questions.{told_by};
ghost use Rattle.instructions.specs.Does.{DoesFor};
ghost use Rattle.tests.specs.Prepares.{OtherLetter};
ghost use Rattle.equality.specs.Equality.{OtherArgument};
ghost use Rattle.record_equality.specs.RecordEquality.{NextLent, Wholes, Meetable, Meets, RecordRelatable};

use instructions::{Bench, Question};
use state::Working;
use table::Table;

// The components of the record after the pointer of file `i`, none at the file's end.
fn next_record(state: &Working, i: usize) -> &[u8]
    requires { i < limit.files }
    ensures { NextLent state.now.store i result.now }
{
    records::next_contents(filing::after_bytes(state, i))
}

fn letter_is_whole(l: table::Letter) -> bool
    requires { OtherLetter l }
    ensures { result ≡ is_whole (use_of (letter_of l)).reading }
{
    matches!(l, table::Letter::E)
}

// Whether an argument means a whole record.
fn is_whole(arg: table::Argument) -> bool
    requires { OtherArgument arg }
    ensures { Wholes arg result }
{
    match arg {
        table::Argument::Indexed(l, _) => letter_is_whole(l),
        _ => false,
    }
}

// Whether a record, or its first component, is what an argument means, with its components beside.
fn meets(x: &[u8], given: &[u8], arg: table::Argument) -> bool
    requires { Meetable x.now given.now arg }
    ensures { Meets x.now given.now arg result }
{
    if is_whole(arg) {
        return records::same_contents(x, given);
    }
    let t = matching::count(records::first_of(x), equality::test_of(arg, given));
    t.reached
}

// RZ of file `i`: whether a component is missing at the file's end is asked before the questions of the argument.
pub fn rz(table: Table, bench: &mut Bench, i: usize, arg: table::Argument) -> Result<(), Question>
    requires { RecordRelatable table.cells.now i arg }
    ensures { DoesFor bench.old.state (told_by result) bench.new.state (λ g ins. row g ins bench.old.state.store (nth letters.Letter.P i) (arg_of (table_of table.entry.cells.now) arg) nothing RZ) }
{
    bench.state.stands();
    let held = comparands::put_comparand(table, &bench.state, &mut bench.given, arg);
    let x = next_record(&bench.state, i);
    if x.is_empty() {
        return Err(Question::Missing);
    }
    let len = held?;
    if equality::unlike(x, &bench.given[..len], arg) {
        return Err(Question::Kind);
    }
    let holds = meets(x, &bench.given[..len], arg);
    bench.state.minus_unless(holds);
    Ok(())
}
