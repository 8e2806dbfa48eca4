// Writing words to outputs: PISZ.
#![tactic(auto)]

ghost use Rattle.std.specs.Prelude.{◌<◌, length};
ghost use Rattle.language.specs.Limits as limit;
ghost use Rattle.language.specs.Letters.Letter.{Q};
ghost use Rattle.language.specs.Program.Op.{PISZ};
ghost use Rattle.machine.specs.Changes.{minus_unless, printed};
ghost use Rattle.machine.specs.Effects.{row};
ghost use Rattle.tests.specs.Prepares.{until_in};
ghost use Rattle.packed.specs.Packed.{table_of};
ghost use Rattle.state.specs.Working.{HoldsState, on_store, nth, reading};
ghost use Rattle.state.specs.Blocks.{Printable};
ghost use Rattle.table.specs.Denote.{arg_of};
ghost use Rattle.instructions.specs.Questions.{told_by};
ghost use Rattle.instructions.specs.Does.{Tried, DoesFor};
ghost use Rattle.moves.specs.Moves.{all_taken_words, TestBeside, Movable};
ghost use Rattle.printing.specs.Printing.{spelled_out};

use instructions::{Bench, Question, Source};
use language::Machine;
use state::Working;
use table::Table;
use tests::Prepared;

// Writes characters to output `j`, and turns H minus unless the test was reached.
fn put_out(state: &mut Working, j: usize, chars: &[u8], reached: bool)
    requires { Printable state.old j (length chars.now) }
    ensures { HoldsState state.new (on_store (λ t. minus_unless reached (printed (nth Q j) chars.now t)) state.old) }
{
    state.print(j, chars);
    state.minus_unless(reached);
}

// Writes the characters of the words that a test takes of an expression to output `j`.
fn spell(bench: &mut Bench, test: Prepared, source: Source, j: usize) -> Result<(), Question>
    requires beside { TestBeside bench.old.given test }
    requires source { source.i < limit.expressions }
    requires target { j < limit.outputs }
    ensures { Tried bench.old.state (told_by result) bench.new.state (all_taken_words (until_in test bench.old.given) source.i bench.old.state.store) (spelled_out (until_in test bench.old.given) source.removes source.i j bench.old.state.store) }
{
    let x = bench.state.expr_bytes(source.i);
    let t = matching::count(x, test.with(&bench.given));
    if !t.words {
        return Err(Question::Kind);
    }
    if Machine::OUTPUT < bench.state.output_len(j) + t.amount.chars {
        return Err(Question::Room);
    }
    let n = components::join(&mut bench.hold, &x[..t.amount.bytes]);
    bench.state.past_parts(source, t.amount);
    put_out(&mut bench.state, j, &bench.hold[..n], t.reached);
    Ok(())
}

// PISZ to output `j`.
pub fn pisz(
    table: Table,
    bench: &mut Bench,
    source: Source,
    j: usize,
    arg: table::Argument,
) -> Result<(), Question>
    requires { Movable table.cells.now source.i j limit.outputs arg }
    ensures { DoesFor bench.old.state (told_by result) bench.new.state (λ g ins. row g ins bench.old.state.store (nth (reading source.removes) source.i) (nth Q j) (arg_of (table_of table.entry.cells.now) arg) PISZ) }
{
    bench.state.stands();
    let test = tests::prepare(table, &bench.state, &mut bench.given, arg)?;
    spell(bench, test, source, j)
}
