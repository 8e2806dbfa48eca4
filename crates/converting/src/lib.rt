// Numbers to words and back: SLOWO and LICZBA.
#![tactic(auto)]

ghost use Rattle.std.specs.Prelude.{◌<◌, ◌≤◌};
ghost use Rattle.language.specs.Letters.Letter.{E};
ghost use Rattle.language.specs.Limits as limit;
ghost use Rattle.language.specs.Program.Arg.{nothing};
ghost use Rattle.language.specs.Program.Op.{SLOWO, LICZBA};
ghost use Rattle.machine.specs.Arguments.{expr};
ghost use Rattle.machine.specs.Effects.{row};
ghost use Rattle.state.specs.Working.{Stands, nth, reading};
ghost use Rattle.instructions.specs.Questions.{told_by};
ghost use Rattle.instructions.specs.Does.{DoesFor};
ghost use Rattle.converting.specs.Converting.{NumeralPut, ReadsNumeral};

use components::{Amount, Kind};
use instructions::{Bench, Question, Source};
use layout::StatePlaces;
use numerals::NoNumber;
use state::Working;

// The number that a word writes, with 8,388,607 added; and how many letters the word has.
#[derive(Clone, Copy, Debug, PartialEq, Eq)]
pub struct Spelled {
    pub code: usize,
    pub letters: usize,
}

// Writes the decimal word of a number in front of `hold`, and tells how many characters it has.
fn put_numeral(hold: &mut [u8; StatePlaces::ROW], code: usize) -> usize
    requires { code ≤ 16777214 }
    ensures { NumeralPut hold.old code hold.new result }
{
    let mut w = [0u8; decimals::LONGEST];
    let n = decimals::put_decimal(&mut w, code);
    components::put_word(hold, 0, &w[..n]);
    n
}

// The first component of expression `i` as a word that writes a number.
fn first_numeral(state: &Working, i: usize) -> Result<Spelled, Question>
    requires { i < limit.expressions }
    ensures reads { ReadsNumeral (expr state.now.store (nth E i)) result }
    ensures stands { Stands state.now }
{
    let x = instructions::front_of(state, i, Kind::Word)?;
    let w = components::chars_of(x);
    // A match and no `?` after a `From`: such a `From` would make `numerals` or `instructions` use the other for this place alone.
    match numerals::read_decimal(w) {
        Ok(code) => Ok(Spelled {
            code: code as usize,
            letters: w.len(),
        }),
        Err(NoNumber::NotNumeral) => Err(Question::Kind),
        Err(NoNumber::OutOfRange) => Err(Question::Range),
    }
}

// SLOWO.
pub fn slowo(bench: &mut Bench, source: Source) -> Result<(), Question>
    requires { source.i < limit.expressions }
    ensures { DoesFor bench.old.state (told_by result) bench.new.state (λ g ins. row g ins bench.old.state.store (nth (reading source.removes) source.i) nothing nothing SLOWO) }
{
    let code = operands::first_number(&bench.state, source.i)?;
    let n = put_numeral(&mut bench.hold, code);
    let word = Amount::word(n);
    operands::replace(
        &mut bench.state,
        source,
        Amount::SHORT,
        &bench.hold[..1 + n],
        word,
    )
}

// LICZBA.
pub fn liczba(bench: &mut Bench, source: Source) -> Result<(), Question>
    requires { source.i < limit.expressions }
    ensures { DoesFor bench.old.state (told_by result) bench.new.state (λ g ins. row g ins bench.old.state.store (nth (reading source.removes) source.i) nothing nothing LICZBA) }
{
    let w = first_numeral(&bench.state, source.i)?;
    components::put_number(&mut bench.hold, 0, w.code);
    let word = Amount::word(w.letters);
    operands::replace(
        &mut bench.state,
        source,
        word,
        &bench.hold[..Amount::SHORT.bytes],
        Amount::SHORT,
    )
}
