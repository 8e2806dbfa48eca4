// Reading inputs: CZYTAJ, and USUN of an input.
#![tactic(auto)]

ghost use Rattle.std.specs.Prelude.{true, [], ◌∷◌, length};
ghost use Rattle.language.specs.Letters.Letter.{I};
ghost use Rattle.language.specs.Program.Arg.{nothing};
ghost use Rattle.language.specs.Program.Op.{CZYTAJ, USUN};
ghost use Rattle.machine.specs.Effects.{row};
ghost use Rattle.matching.specs.Tests.{until_firsts, TookChars};
ghost use Rattle.tests.specs.Prepares.{until_firsts_in};
ghost use Rattle.packed.specs.Packed.{table_of};
ghost use Rattle.state.specs.Working.{HoldsState, on_store, nth};
ghost use Rattle.table.specs.Denote.{arg_of};
ghost use Rattle.instructions.specs.Questions.{told_by};
ghost use Rattle.instructions.specs.Does.{Tried};
ghost use Rattle.instructions.specs.Operands.{target as target_letter};
ghost use Rattle.readings.specs.Readings.{read_up, passed, DoesReading, DoesPassing, CharsTakeable, Unread, Passable, WordReadable, InputPassable, InputReadable, Left};

use instructions::{Bench, Question, Target, Task};
use joining::from_moves;
use matching::Test;
use state::Working;
use tests::Prepared;

// What of input `i` is not yet read.
pub fn unread<'a>(state: &Working, i: usize, input: &'a [u8]) -> &'a [u8]
    requires { Unread state.now input.now i }
    ensures { Left state.now input.now i result.now }
{
    let from = state.place(i);
    &input[from..]
}

// How many of the characters of `s` a test takes; of the words that `Among` compares with only the first characters count.
pub fn take_chars(hold: &mut [u8], s: &[u8], test: Test) -> matching::CharsTaken
    requires { CharsTakeable test (length hold.old) }
    ensures { TookChars (until_firsts test.entry) s.now result }
{
    match test {
        Test::Among(given) => {
            let n = matching::first_chars(hold, given);
            matching::count_chars(s, Test::Among(&hold[..n]))
        }
        Test::All | Test::Count(_) | Test::Class(_) => matching::count_chars(s, test),
    }
}

// Reads what a test takes of input `i` as a word of an expression.
fn read_word(
    bench: &mut Bench,
    test: Prepared,
    input: &[u8],
    i: usize,
    target: Target,
) -> Result<(), Question>
    requires { WordReadable bench.old.state input.now bench.old.given test i target.j }
    ensures { Tried bench.old.state (told_by result) bench.new.state true (read_up (until_firsts_in test bench.old.given) input.now i target.at_end target.j bench.old.state.store) }
{
    let rest = unread(&bench.state, i, input);
    let t = take_chars(&mut bench.hold, rest, test.with(&bench.given));
    let k = t.taken;
    if !joining::has_word_room(&bench.state, false, k) {
        return Err(Question::Room);
    }
    let n = joining::make_word(&mut bench.hold, &rest[..k]);
    bench.state.read_past(i, k);
    let word = from_moves::Amount {
        parts: joining::some(k),
        bytes: n,
        chars: k,
    };
    from_moves::deliver(&mut bench.state, target, &bench.hold[..n], word, t.reached);
    Ok(())
}

// CZYTAJ of input `i`.
pub fn czytaj(
    task: Task,
    bench: &mut Bench,
    i: usize,
    target: Target,
    arg: table::Argument,
) -> Result<(), Question>
    requires { InputReadable task.table.cells.now bench.old.state task.first.now task.second.now i target.j arg }
    ensures { DoesReading bench.old.state (told_by result) bench.new.state (λ g reverses. row g (task.entry.first.now ∷ task.entry.second.now ∷ []) bench.old.state.store (nth I i) (nth (target_letter reverses target.at_end) target.j) (arg_of (table_of task.entry.table.cells.now) arg) CZYTAJ) }
{
    bench.state.stands();
    let test = tests::prepare(task.table, &bench.state, &mut bench.given, arg)?;
    read_word(bench, test, task.input(i), i, target)
}

// Reads past what a test takes of input `i`.
// Not one with `moves::cut_off`, for USUN of an expression: that removes components, this moves the place in an input past characters.
fn pass(bench: &mut Bench, test: Prepared, input: &[u8], i: usize)
    requires { Passable bench.old.state input.now bench.old.given test i }
    ensures { HoldsState bench.new.state (on_store (passed (until_firsts_in test bench.old.given) input.now i) bench.old.state) }
{
    let rest = unread(&bench.state, i, input);
    let t = take_chars(&mut bench.hold, rest, test.with(&bench.given));
    bench.state.read_past(i, t.taken);
    bench.state.minus_unless(t.reached);
}

// USUN of input `i`.
pub fn usun_input(
    task: Task,
    bench: &mut Bench,
    i: usize,
    arg: table::Argument,
) -> Result<(), Question>
    requires { InputPassable task.table.cells.now bench.old.state task.first.now task.second.now i arg }
    ensures { DoesPassing bench.old.state (told_by result) bench.new.state (λ g. row g (task.entry.first.now ∷ task.entry.second.now ∷ []) bench.old.state.store (nth I i) (arg_of (table_of task.entry.table.cells.now) arg) nothing USUN) }
{
    bench.state.stands();
    let test = tests::prepare(task.table, &bench.state, &mut bench.given, arg)?;
    pass(bench, test, task.input(i), i);
    Ok(())
}

// Of `joining`, passed on to the crates above.
pub mod from_joining {
    pub use joining::zbij;
}
