// Moves of components: PRZESLIJ and USUN A.
#![tactic(auto)]

ghost use Rattle.std.specs.Prelude.{true, ◌<◌};
ghost use Rattle.language.specs.Limits as limit;
ghost use Rattle.language.specs.Program.Arg.{nothing};
ghost use Rattle.language.specs.Program.Op.{PRZESLIJ, USUN};
ghost use Rattle.layout.specs.Components.{components_in};
ghost use Rattle.machine.specs.Changes.{minus_unless, into};
ghost use Rattle.machine.specs.Effects.{row};
ghost use Rattle.tests.specs.Prepares.{until_in};
ghost use Rattle.table.specs.Below.Packed.{table_of};
ghost use Rattle.state.specs.Working.{HoldsState, on_store, nth, reading, writing};
ghost use Rattle.state.specs.Blocks.{PartsWritable};
ghost use Rattle.table.specs.Denote.{arg_of};
ghost use Rattle.instructions.specs.Questions.{told_by};
ghost use Rattle.instructions.specs.Does.{Tried, DoesFor};
ghost use Rattle.instructions.specs.Operands.{target as target_letter};
ghost use Rattle.moves.specs.Moves.{sent, cut_off, TestBeside, Movable, Removable};

use components::Amount;
use instructions::{Bench, Question, Source, Target};
use state::Working;
use table::Table;
use tests::Prepared;

// Writes the components in `new`, which are so much and already turned round where they are to be, and turns H minus unless the test was reached.
pub fn deliver(state: &mut Working, target: Target, new: &[u8], amount: Amount, reached: bool)
    requires { PartsWritable state.old target.j new.now amount.parts amount.chars }
    ensures { HoldsState state.new (on_store (λ t. minus_unless reached (into (nth (writing target.at_end) target.j) (components_in new.now) t)) state.old) }
{
    state.write_parts(target, new, amount);
    state.minus_unless(reached);
}

// Writes what a test takes of an expression to another, where it has room.
fn send(bench: &mut Bench, test: Prepared, source: Source, target: Target) -> Result<(), Question>
    requires beside { TestBeside bench.old.given test }
    requires source { source.i < limit.expressions }
    requires target { target.j < limit.expressions }
    ensures { Tried bench.old.state (told_by result) bench.new.state true (sent (until_in test bench.old.given) source.removes source.i target.reverses target.at_end target.j bench.old.state.store) }
{
    let x = bench.state.expr_bytes(source.i);
    let t = matching::count(x, test.with(&bench.given));
    let amount = t.amount;
    if !instructions::has_room_after(&bench.state, source.freed(amount), amount) {
        return Err(Question::Room);
    }
    components::copy(&mut bench.hold, &x[..amount.bytes], target.reverses);
    bench.state.past_parts(source, amount);
    let new = &bench.hold[..amount.bytes];
    deliver(&mut bench.state, target, new, amount, t.reached);
    Ok(())
}

// PRZESLIJ.
pub fn przeslij(
    table: Table,
    bench: &mut Bench,
    source: Source,
    target: Target,
    arg: table::Argument,
) -> Result<(), Question>
    requires { Movable table.cells.now source.i target.j limit.expressions arg }
    ensures { DoesFor bench.old.state (told_by result) bench.new.state (λ g ins. row g ins bench.old.state.store (nth (reading source.removes) source.i) (nth (target_letter target.reverses target.at_end) target.j) (arg_of (table_of table.entry.cells.now) arg) PRZESLIJ) }
{
    bench.state.stands();
    let test = tests::prepare(table, &bench.state, &mut bench.given, arg)?;
    send(bench, test, source, target)
}

// Takes away what a test takes of expression `i`.
fn cut_off(bench: &mut Bench, test: Prepared, i: usize)
    requires beside { TestBeside bench.old.given test }
    requires source { i < limit.expressions }
    ensures { HoldsState bench.new.state (on_store (cut_off (until_in test bench.old.given) i) bench.old.state) }
{
    let x = bench.state.expr_bytes(i);
    let t = matching::count(x, test.with(&bench.given));
    bench.state.drop_parts(i, t.amount);
    bench.state.minus_unless(t.reached);
}

// USUN of expression `i`.
pub fn usun(table: Table, bench: &mut Bench, i: usize, arg: table::Argument) -> Result<(), Question>
    requires { Removable table.cells.now i arg }
    ensures { DoesFor bench.old.state (told_by result) bench.new.state (λ g ins. row g ins bench.old.state.store (nth (reading true) i) (arg_of (table_of table.entry.cells.now) arg) nothing USUN) }
{
    bench.state.stands();
    let test = tests::prepare(table, &bench.state, &mut bench.given, arg)?;
    cut_off(bench, test, i);
    Ok(())
}
