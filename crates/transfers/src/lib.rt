// Between expressions and files: WSTAW and POBIERZ; and whether new records have room.
#![tactic(auto)]

ghost use Rattle.std.specs.Prelude.{◌≡◌, ◌<◌};
ghost use Rattle.language.specs.Limits as limit;
ghost use Rattle.language.specs.Program.Arg.{nothing};
ghost use Rattle.language.specs.Program.Op.{WSTAW, POBIERZ};
ghost use Rattle.machine.specs.Effects.{row};
ghost use Rattle.state.specs.Working.{nth, reading, filing};
ghost use Rattle.instructions.specs.Questions.{told_by};
ghost use Rattle.instructions.specs.Does.{DoesFor};
ghost use Rattle.instructions.specs.Operands as letters;
ghost use Rattle.transfers.specs.Places.{room_of, Growing};

use components::Amount;
use instructions::{Bench, FileTarget, Question, Source, Target};
use language::Machine;
use state::Working;

// Whether so many records, so much in them and so many addresses more are within the limits.
// Not `has_room_after` alone: records and addresses have limits of their own, and too many addresses are another question.
pub fn room_for(state: &Working, records: usize, more: Amount, given: usize) -> Result<(), Question>
    requires { Growing records more.parts more.chars given }
    ensures { told_by result ≡ room_of state.now.store records more.parts more.chars given }
{
    if !instructions::has_room(state, more) {
        return Err(Question::Room);
    }
    if Machine::RECORDS < state.records() + records {
        return Err(Question::Room);
    }
    if Machine::ADDRESSES < state.last() + given {
        return Err(Question::Addresses);
    }
    Ok(())
}

// WSTAW to a file.
pub fn wstaw(bench: &mut Bench, source: Source, target: FileTarget) -> Result<(), Question>
    requires first { source.i < limit.expressions }
    requires second { target.j < limit.files }
    ensures { DoesFor bench.old.state (told_by result) bench.new.state (λ g ins. row g ins bench.old.state.store (nth (reading source.removes) source.i) (nth (filing target.reverses) target.j) nothing WSTAW) }
{
    let x = bench.state.expr_bytes(source.i);
    let n = x.len();
    if n == 0 {
        bench.state.set_plus(false);
        return Ok(());
    }
    let t = matching::count(x, matching::Test::All);
    let amount = t.amount;
    room_for(&bench.state, 1, source.amount_left(amount), 1)?;
    let last = bench.state.last();
    records::put_record(&mut bench.hold, last + 1, x);
    bench.state.past_parts(source, amount);
    let record = Amount {
        bytes: n + records::FRAME,
        ..amount
    };
    filing::write_records(
        &mut bench.state,
        target,
        &bench.hold[..record.bytes],
        1,
        record,
    );
    Ok(())
}

// POBIERZ from a file.
pub fn pobierz(bench: &mut Bench, source: Source, target: Target) -> Result<(), Question>
    requires first { source.i < limit.files }
    requires second { target.j < limit.expressions }
    ensures { DoesFor bench.old.state (told_by result) bench.new.state (λ g ins. row g ins bench.old.state.store (nth (filing source.removes) source.i) (nth (letters.target target.reverses target.at_end) target.j) nothing POBIERZ) }
{
    bench.state.stands();
    let f = filing::after_bytes(&bench.state, source.i);
    if f.is_empty() {
        bench.state.set_plus(false);
        return Ok(());
    }
    let x = records::contents_of(f);
    let n = x.len();
    let t = matching::count(x, matching::Test::All);
    let amount = t.amount;
    if !instructions::has_room(&bench.state, source.amount_left(amount)) {
        return Err(Question::Room);
    }
    components::copy(&mut bench.hold, x, target.reverses);
    let record = Amount {
        bytes: n + records::FRAME,
        ..amount
    };
    filing::past_records(&mut bench.state, &mut bench.given, source, 1, record);
    bench.state.write_parts(target, &bench.hold[..n], amount);
    Ok(())
}
