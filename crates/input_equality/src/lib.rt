// RW of an input: its next character, compared as a word.
#![tactic(auto)]

ghost use Rattle.std.specs.Prelude.{[], ◌∷◌};
ghost use Rattle.language.specs.Letters.Letter.{I};
ghost use Rattle.language.specs.Program.Arg.{nothing};
ghost use Rattle.language.specs.Program.Op.{RW};
ghost use Rattle.machine.specs.Effects.{row};
ghost use Rattle.packed.specs.Packed.{table_of};
ghost use Rattle.state.specs.Working.{HoldsState, on_store, nth};
ghost use Rattle.table.specs.Denote.{arg_of};
ghost use Rattle.instructions.specs.Questions.{told_by};
ghost use Rattle.readings.specs.Readings.{DoesPassing};
ghost use Rattle.input_equality.specs.InputEquality.{Spellable, NotWord, compared, InputComparable, InputRelatable};

use instructions::{Bench, Question, Task};
use layout::StatePlaces;
use state::Working;

// Whether an argument offers a single component that is not a word.
fn not_word(given: &[u8], arg: table::Argument) -> bool
    requires { Spellable given.now arg }
    ensures { NotWord given.now arg result }
{
    if !equality::is_single(arg) {
        return false;
    }
    components::kind_of(given) != components::Kind::Word
}

// Compares the next character of input `i`; of the words beside only the first characters count. Nothing is read.
fn compare(
    state: &mut Working,
    hold: &mut [u8; StatePlaces::ROW],
    given: &[u8],
    input: &[u8],
    i: usize,
    arg: table::Argument,
)
    requires { InputComparable state.old input.now given.now i }
    ensures { HoldsState state.new (on_store (compared arg given.now input.now i) state.old) }
{
    let rest = readings::unread(state, i, input);
    let n = rest.len().min(1);
    let t = readings::take_chars(hold, &rest[..n], equality::test_of(arg, given));
    state.minus_unless(t.reached);
}

// RW of input `i`.
pub fn rw_input(
    task: Task,
    bench: &mut Bench,
    i: usize,
    arg: table::Argument,
) -> Result<(), Question>
    requires { InputRelatable task.table.cells.now bench.old.state task.first.now task.second.now i arg }
    ensures { DoesPassing bench.old.state (told_by result) bench.new.state (λ g. row g (task.entry.first.now ∷ task.entry.second.now ∷ []) bench.old.state.store (nth I i) (arg_of (table_of task.entry.table.cells.now) arg) nothing RW) }
{
    bench.state.stands();
    let len = comparands::put_comparand(task.table, &bench.state, &mut bench.given, arg)?;
    if not_word(&bench.given[..len], arg) {
        return Err(Question::Kind);
    }
    compare(
        &mut bench.state,
        &mut bench.hold,
        &bench.given[..len],
        task.input(i),
        i,
        arg,
    );
    Ok(())
}
