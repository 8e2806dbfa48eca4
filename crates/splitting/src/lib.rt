// Splitting a word: ROZBIJ.
#![tactic(auto)]

ghost use Rattle.std.specs.Prelude.{◌≡◌, ◌<◌, true, eqb};
ghost use Rattle.language.specs.Limits as limit;
ghost use Rattle.language.specs.Program.Arg.{nothing};
ghost use Rattle.language.specs.Program.Op.{ROZBIJ};
ghost use Rattle.machine.specs.Effects.{row};
ghost use Rattle.tests.specs.Prepares.{until_firsts_in};
ghost use Rattle.packed.specs.Packed.{table_of};
ghost use Rattle.state.specs.Working.{Stands, nth, reading};
ghost use Rattle.table.specs.Denote.{arg_of};
ghost use Rattle.instructions.specs.Questions.{told_by};
ghost use Rattle.instructions.specs.Does.{Tried, DoesFor};
ghost use Rattle.splitting.specs.Splitting.{split_up, WordAsked, Splittable, WordSplittable};

use components::{Amount, Kind};
use instructions::{Bench, Question, Source};
use state::Working;
use table::Table;
use tests::Prepared;

// Whether a test's question of a component is answered no.
fn is_missing(prepared: Result<Prepared, Question>) -> bool
    ensures { result ≡ eqb (told_by prepared) 52 }
{
    matches!(prepared, Err(Question::Missing))
}

// The test, where a component is there (52) that is a word (53), and the test's own questions are answered yes. The lowest number is told: a component
// that the test misses comes before a word.
fn word_of(
    state: &Working,
    i: usize,
    prepared: Result<Prepared, Question>,
) -> Result<Prepared, Question>
    requires { i < limit.expressions }
    ensures asked { WordAsked state.now.store i prepared result }
    ensures stands { Stands state.now }
{
    let x = state.expr_bytes(i);
    if x.is_empty() {
        return Err(Question::Missing);
    }
    if is_missing(prepared) {
        return prepared;
    }
    if components::kind_of(x) != Kind::Word {
        return Err(Question::Kind);
    }
    prepared
}

// Puts the characters that a test takes of the first word of an expression in front of it as words.
// Not one with `joining::join_up`, `printing::spell` or `moves::send`: each asks another room and makes other bytes of what it takes.
fn split_up(bench: &mut Bench, test: Prepared, source: Source) -> Result<(), Question>
    requires { Splittable bench.old.state bench.old.given test source.i }
    ensures { Tried bench.old.state (told_by result) bench.new.state true (split_up (until_firsts_in test bench.old.given) source.removes source.i bench.old.state.store) }
{
    let w = components::chars_of(bench.state.expr_bytes(source.i));
    let word = Amount::word(w.len());
    let t = readings::take_chars(&mut bench.hold, w, test.with(&bench.given));
    let k = t.taken;
    let n = components::split(&mut bench.hold, &w[..k]);
    let new = Amount {
        parts: k,
        bytes: n,
        chars: k,
    };
    if !instructions::has_room_after(&bench.state, source.freed(word), new) {
        return Err(Question::Room);
    }
    bench.state.past_parts(source, word);
    moves::deliver(
        &mut bench.state,
        source.front(),
        &bench.hold[..n],
        new,
        t.reached,
    );
    Ok(())
}

// ROZBIJ.
pub fn rozbij(
    table: Table,
    bench: &mut Bench,
    source: Source,
    arg: table::Argument,
) -> Result<(), Question>
    requires { WordSplittable table.cells.now source.i arg }
    ensures { DoesFor bench.old.state (told_by result) bench.new.state (λ g ins. row g ins bench.old.state.store (nth (reading source.removes) source.i) (arg_of (table_of table.entry.cells.now) arg) nothing ROZBIJ) }
{
    let prepared = tests::prepare(table, &bench.state, &mut bench.given, arg);
    let test = word_of(&bench.state, source.i, prepared)?;
    split_up(bench, test, source)
}

// Of `joining`, passed on to the crates above.
pub mod from_joining {
    pub use readings::from_joining::zbij;
}

// Of `readings`, passed on to the crates above.
pub mod from_readings {
    pub use readings::{czytaj, usun_input};
}
