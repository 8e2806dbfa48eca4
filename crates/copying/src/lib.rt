// Moves of records: KOPIUJ, SKRESL and OMIN.
#![tactic(auto)]

ghost use Rattle.std.specs.Prelude.{◌≡◌, true, false, map};
ghost use Rattle.language.specs.Letters.Letter.{P};
ghost use Rattle.language.specs.Program.Arg.{nothing};
ghost use Rattle.language.specs.Program.Op.{KOPIUJ, SKRESL, OMIN};
ghost use Rattle.layout.specs.Components.{records_bytes, records_in};
ghost use Rattle.machine.specs.Changes.{minus_unless, stamped};
ghost use Rattle.machine.specs.Effects.{row};
ghost use Rattle.cells.specs.Cells.{pasted};
ghost use Rattle.records.specs.Places.{Copyable};
ghost use Rattle.records.specs.Sequences.{until_records};
ghost use Rattle.packed.specs.Packed.{table_of};
ghost use Rattle.state.specs.Working.{HoldsState, on_store, nth, filing, turned};
ghost use Rattle.record_tests.specs.RecordPrepares.{until_records_in};
ghost use Rattle.table.specs.Denote.{arg_of};
ghost use Rattle.instructions.specs.Questions.{told_by};
ghost use Rattle.instructions.specs.Does.{DoesFor};
ghost use Rattle.copying.specs.Copies.{passed, copied, Droppable, Duplicable, RecordsRemovable, RecordsMovable, Storing};

use instructions::{Bench, FileTarget, Question, Source};
use layout::StatePlaces;
use record_tests::RecordsPrepared;
use records::RecordTest;
use state::Working;
use table::Table;

// Moves the pointer of file `i` past what a test takes.
fn pass_taken(state: &mut Working, hold: &mut [u8; StatePlaces::ROW], test: RecordTest, i: usize)
    requires { Droppable test i }
    ensures { HoldsState state.new (on_store (passed (until_records test.entry) false i) state.old) }
{
    let t = records::count(filing::after_bytes(state, i), test);
    filing::pass_records(state, hold, i, t.end);
    state.minus_unless(t.reached);
}

// Takes away what a test takes after the pointer of file `i`.
// Not one with `pass_taken`: that moves bytes between two strings and keeps the totals; this lowers the totals.
fn drop_taken(state: &mut Working, test: RecordTest, i: usize)
    requires { Droppable test i }
    ensures { HoldsState state.new (on_store (passed (until_records test.entry) true i) state.old) }
{
    let f = filing::after_bytes(state, i);
    let t = records::count(f, test);
    let v = records::totals_of(&f[..t.end.bytes]);
    filing::drop_records(state, i, t.end.records, v);
    state.minus_unless(t.reached);
}

// OMIN of file `i`.
pub fn omin(table: Table, bench: &mut Bench, i: usize, arg: table::Argument) -> Result<(), Question>
    requires { RecordsRemovable table.cells.now i arg }
    ensures { DoesFor bench.old.state (told_by result) bench.new.state (λ g ins. row g ins bench.old.state.store (nth P i) (arg_of (table_of table.entry.cells.now) arg) nothing OMIN) }
{
    bench.state.stands();
    let q = record_tests::prepare(table, &bench.state, &mut bench.given, arg)?;
    pass_taken(&mut bench.state, &mut bench.hold, q.with(&bench.given), i);
    Ok(())
}

// SKRESL of file `i`.
pub fn skresl(
    table: Table,
    bench: &mut Bench,
    i: usize,
    arg: table::Argument,
) -> Result<(), Question>
    requires { RecordsRemovable table.cells.now i arg }
    ensures { DoesFor bench.old.state (told_by result) bench.new.state (λ g ins. row g ins bench.old.state.store (nth (filing true) i) (arg_of (table_of table.entry.cells.now) arg) nothing SKRESL) }
{
    bench.state.stands();
    let q = record_tests::prepare(table, &bench.state, &mut bench.given, arg)?;
    drop_taken(&mut bench.state, q.with(&bench.given), i);
    Ok(())
}

// Writes the records of `src` at the front of `dst` with the addresses after `last`, turned round or not.
// Here and not in `records`: that has both ways, each with a promise of its own, and only here is asked which.
fn restamp(dst: &mut [u8], src: &[u8], last: usize, reverses: bool)
    requires { Copyable dst.old src.now last }
    ensures { dst.new ≡ pasted dst.old 0 (records_bytes (turned reverses (stamped last (map (λ r. r.parts) (records_in src.now))))) }
{
    if reverses {
        records::stamp_reversed(dst, src, last);
    } else {
        records::stamp(dst, src, last);
    }
}

// Copies what a test takes after the pointer of a file to another. Moving the pointer writes over the bytes beside the test.
fn copy_taken(
    bench: &mut Bench,
    prepared: RecordsPrepared,
    source: Source,
    target: FileTarget,
) -> Result<(), Question>
    requires { Duplicable bench.old.given prepared source.i target.j }
    ensures { Storing bench.old.state (told_by result) bench.new.state (copied (until_records_in prepared bench.old.given) source.removes source.i target.reverses target.j bench.old.state.store) }
{
    bench.state.stands();
    let f = filing::after_bytes(&bench.state, source.i);
    let t = records::count(f, prepared.with(&bench.given));
    let k = t.end.records;
    let bytes = t.end.bytes;
    let v = records::totals_of(&f[..bytes]);
    transfers::room_for(&bench.state, source.left(k), source.amount_left(v), k)?;
    let last = bench.state.last();
    restamp(&mut bench.hold, &f[..bytes], last, target.reverses);
    filing::past_records(&mut bench.state, &mut bench.given, source, k, v);
    filing::write_records(&mut bench.state, target, &bench.hold[..bytes], k, v);
    bench.state.minus_unless(t.reached);
    Ok(())
}

// KOPIUJ from a file to a file.
pub fn kopiuj(
    table: Table,
    bench: &mut Bench,
    source: Source,
    target: FileTarget,
    arg: table::Argument,
) -> Result<(), Question>
    requires { RecordsMovable table.cells.now source.i target.j arg }
    ensures { DoesFor bench.old.state (told_by result) bench.new.state (λ g ins. row g ins bench.old.state.store (nth (filing source.removes) source.i) (nth (filing target.reverses) target.j) (arg_of (table_of table.entry.cells.now) arg) KOPIUJ) }
{
    bench.state.stands();
    let q = record_tests::prepare(table, &bench.state, &mut bench.given, arg)?;
    copy_taken(bench, q, source, target)
}
