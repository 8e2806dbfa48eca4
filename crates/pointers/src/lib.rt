// The pointers of files, addresses and exchanges: COFNIJ, SCHOWAJ, USTAW and ZAMIEN.
#![tactic(auto)]

ghost use Rattle.std.specs.Prelude.{Bool, ◌<◌};
ghost use Rattle.language.specs.Limits as limit;
ghost use Rattle.language.specs.Letters.Letter.{E, P};
ghost use Rattle.language.specs.Program.Arg.{nothing};
ghost use Rattle.language.specs.Program.Op.{COFNIJ, SCHOWAJ, USTAW, ZAMIEN};
ghost use Rattle.machine.specs.Arguments.{file_of, records};
ghost use Rattle.machine.specs.Effects.{row};
ghost use Rattle.state.specs.Working.{nth, reading};
ghost use Rattle.instructions.specs.Questions.{told_by};
ghost use Rattle.instructions.specs.Does.{DoesFor};
ghost use Rattle.instructions.specs.Operands.{target as letter_by};
ghost use Rattle.pointers.specs.Located.{Located};

use components::{Amount, Kind};
use instructions::{Bench, Question, Source, Target};
use records::Place;
use state::Working;

// The front of every file.
const FRONT: Place = Place {
    records: 0,
    bytes: 0,
};

// COFNIJ of file `i`.
pub fn cofnij(bench: &mut Bench, i: usize) -> Result<(), Question>
    requires { i < limit.files }
    ensures { DoesFor bench.old.state (told_by result) bench.new.state (λ g ins. row g ins bench.old.state.store (nth P i) nothing nothing COFNIJ) }
{
    filing::point(&mut bench.state, &mut bench.hold, i, FRONT);
    Ok(())
}

// SCHOWAJ of file `i`. One component is the same turned round.
pub fn schowaj(bench: &mut Bench, i: usize, target: Target) -> Result<(), Question>
    requires file { i < limit.files }
    requires expression { target.j < limit.expressions }
    ensures { (reverses : Bool) → DoesFor bench.old.state (told_by result) bench.new.state (λ g ins. row g ins bench.old.state.store (nth P i) (nth (letter_by reverses target.at_end) target.j) nothing SCHOWAJ) }
{
    bench.state.stands();
    let a = records::last_address(filing::before_bytes(&bench.state, i)).unwrap_or(0);
    if !instructions::has_room(&bench.state, Amount::SHORT) {
        return Err(Question::Room);
    }
    components::put_address(&mut bench.hold, 0, a);
    bench
        .state
        .write_parts(target, &bench.hold[..Amount::SHORT.bytes], Amount::SHORT);
    Ok(())
}

// Where the record of an address stands in file `i`; the address 0 stands in front of all.
fn locate(state: &Working, i: usize, address: usize) -> Option<Place>
    requires { i < limit.files }
    ensures { Located address (records (file_of state.now.store (nth P i))) result }
{
    if address == 0 {
        return Some(FRONT);
    }
    let before = match records::find(filing::before_bytes(state, i), address) {
        Ok(place) => return Some(place),
        Err(end) => end,
    };
    let place = records::find(filing::after_bytes(state, i), address).ok()?;
    Some(Place {
        records: before.records + place.records,
        bytes: before.bytes + place.bytes,
    })
}

// USTAW of file `j` to the record whose address is the first component of an expression.
pub fn ustaw(bench: &mut Bench, source: Source, j: usize) -> Result<(), Question>
    requires expression { source.i < limit.expressions }
    requires file { j < limit.files }
    ensures { DoesFor bench.old.state (told_by result) bench.new.state (λ g ins. row g ins bench.old.state.store (nth (reading source.removes) source.i) (nth P j) nothing USTAW) }
{
    let x = instructions::front_of(&bench.state, source.i, Kind::Address)?;
    let Some(place) = locate(&bench.state, j, components::address_of(x)) else {
        return Err(Question::NoRecord);
    };
    bench.state.past_parts(source, Amount::SHORT);
    filing::point(&mut bench.state, &mut bench.hold, j, place);
    Ok(())
}

// ZAMIEN of the expressions `i` and `j`.
pub fn zamien_exprs(bench: &mut Bench, i: usize, j: usize) -> Result<(), Question>
    requires first { i < limit.expressions }
    requires second { j < limit.expressions }
    ensures { DoesFor bench.old.state (told_by result) bench.new.state (λ g ins. row g ins bench.old.state.store (nth E i) (nth E j) nothing ZAMIEN) }
{
    bench.state.exchange_exprs(&mut bench.hold, i, j);
    Ok(())
}

// ZAMIEN of the files `i` and `j`.
// Not one with `zamien_exprs`: a file is two strings, an expression is one, and each exchange has its own definition and conditions.
pub fn zamien_files(bench: &mut Bench, i: usize, j: usize) -> Result<(), Question>
    requires first { i < limit.files }
    requires second { j < limit.files }
    ensures { DoesFor bench.old.state (told_by result) bench.new.state (λ g ins. row g ins bench.old.state.store (nth P i) (nth P j) nothing ZAMIEN) }
{
    filing::exchange_files(&mut bench.state, &mut bench.hold, i, j);
    Ok(())
}
