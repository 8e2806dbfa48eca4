// The eight calls, which `interpreter_c` gives to C. An answer has the number in its upper 32 bits and the line or the count in the lower.
#![tactic(auto)]

ghost use Rattle.std.specs.Prelude.{◌≡◌, [], ◌∷◌, length};
ghost use Rattle.class_calls.specs.Class.{lent_of};
ghost use Rattle.calls.specs.Calls.{packed, start_of, run_of};
ghost use Rattle.calls.specs.Filling.{Fills, filled_number, filled_count, taken_number};
ghost use Rattle.calls.specs.Questions.{question_number};
ghost use Rattle.editions.specs.Convert.{convert_of};
ghost use Rattle.macros.specs.Load.{load_in};
ghost use Rattle.shortening.specs.Below.Told.{loaded_number, loaded_line};
ghost use Rattle.shortening.specs.Trying.{shortened_number, shortened_filled};
ghost use Rattle.state_frames.specs.Keeping.{write_of, read_of, Reads};
ghost use Rattle.interpreter.specs.Answers.{Answers, ran_number, ran_count, AnswersLoad, AnswersShorten, AnswersClass};

use calls::{Filled, Question};
use class_running::from_running;
use class_running::from_running::Ran;
use language::Machine;
use shortening::{Shortened, from_macro_loading};
use state_restoring::from_state_saving;
use tasks::Lent;
use translating::from_loading::Loaded;

// The number of an accepted call; that of a run that is paused is `PAUSE`.
pub const ACCEPTED: u8 = 80;

pub use class_running::from_running::PAUSE;

// How many values an answer has beside a number.
pub const VALUES: u64 = 4_294_967_296;

// Number and value in one. The numbers below are those that C gets.
fn packed(number: u8, value: u32) -> u64
    ensures { result ≡ packed number value }
{
    u64::from(number) * VALUES + u64::from(value)
}

// A question answered no, without line or count.
fn packed_no(q: Question) -> u64
    ensures { result ≡ packed (question_number q) 0 }
{
    packed(u8::from(q), 0)
}

// The number of a text.
fn number(loaded: Loaded) -> u8
    ensures { result ≡ loaded_number loaded }
{
    match loaded {
        Ok(()) => ACCEPTED,
        Err(r) => u8::from(r.question),
    }
}

// "Accepted is 80 (load: line 0)"
fn packed_loaded(loaded: Loaded) -> u64
    ensures { result ≡ packed (loaded_number loaded) (loaded_line loaded) }
{
    match loaded {
        Ok(()) => packed(ACCEPTED, 0),
        Err(r) => packed(u8::from(r.question), r.line),
    }
}

// "its number, 80 if accepted, and the count of bytes written"
fn packed_filled(r: Filled) -> u64
    ensures { result ≡ packed (filled_number r) (filled_count r) }
{
    match r {
        Ok(count) => packed(ACCEPTED, count),
        Err(q) => packed_no(q),
    }
}

// The same of a part, with the number of its text. Not one function with `packed_filled`: the number of an accepted call is another.
fn packed_shortened(r: Result<Shortened, Question>) -> u64
    ensures { result ≡ packed (shortened_number r) (filled_count (shortened_filled r)) }
{
    match r {
        Ok(part) => packed(number(part.loaded), part.count),
        Err(q) => packed_no(q),
    }
}

// Of a class, or of a state that is read: there is nothing to count.
fn packed_taken(r: Result<(), Question>) -> u64
    ensures { result ≡ packed (taken_number r) 0 }
{
    packed_filled(r.map(|()| 0))
}

// Of a run: "its count of completed instructions", with the number of a pause or of the stop.
fn packed_ran(r: Result<Ran, Question>) -> u64
    ensures { result ≡ packed (ran_number r) (ran_count r) }
{
    match r {
        Ok(ran) => packed(ran.number(), ran.count),
        Err(q) => packed_no(q),
    }
}

// The number and the line of a text: "Accepted is 80 (load: line 0)".
pub fn eol2_load(text: &[u8], table: &mut [u32]) -> u64
    ensures { AnswersLoad (load_in (length table.old) text.now) table.old result table.new }
{
    packed_loaded(from_macro_loading::load(text, table))
}

// The number, and how many bytes of the buffer are the text in the other edition: "67, with the buffer unchanged; else its rest stays".
pub fn eol2_convert(text: &[u8], out: &mut [u8]) -> u64
    ensures { Fills (convert_of (length out.old) text.now) result out.old out.new }
{
    packed_filled(translating::convert(text, out))
}

// The number that load gives, and how many bytes of the buffer are a part of the text that it refuses with the same number, or the text that it
// accepts; the table "is left as loading the part leaves it".
pub fn eol2_shorten(text: &[u8], table: &mut [u32], out: &mut [u8]) -> u64
    ensures { AnswersShorten text.now table.old out.old result table.new out.new }
{
    packed_shortened(shortening::shorten(text, table, out))
}

// Start, or the first question answered no.
fn begin(lent: Lent, state: &mut [u8]) -> Result<(), Question>
    ensures { Answers (start_of lent.entry.table.now (lent.entry.first.now ∷ lent.entry.second.now ∷ []) state.old) (packed (taken_number result) 0) state.new }
{
    check_calls::ask(lent)?;
    if state.len() < Machine::STATE {
        return Err(Question::State);
    }
    starting::start(state);
    Ok(())
}

// "Start then makes H plus, all else empty."
// Table, I1 and I2 are arguments of their own here and in three calls below, since C lends them one by one.
pub fn eol2_start(table: &[u32], i1: &[u8], i2: &[u8], state: &mut [u8]) -> u64
    ensures { Answers (start_of table.now (i1.now ∷ i2.now ∷ []) state.old) result state.new }
{
    let lent = Lent {
        table,
        first: i1,
        second: i2,
    };
    packed_taken(begin(lent, state))
}

// A run, or the first question answered no.
fn run(lent: Lent, state: &mut [u8], budget: u32) -> Result<Ran, Question>
    ensures { Answers (run_of lent.entry.table.now (lent.entry.first.now ∷ lent.entry.second.now ∷ []) budget state.old) (packed (ran_number result) (ran_count result)) state.new }
{
    let task = check_calls::ask(lent)?;
    if !check_state::is_state(task, state) {
        return Err(Question::State);
    }
    Ok(from_running::run(task, state, budget))
}

// Run "takes at most the budget of steps"; the answer has the count of completed instructions.
pub fn eol2_run(table: &[u32], i1: &[u8], i2: &[u8], state: &mut [u8], budget: u32) -> u64
    ensures { Answers (run_of table.now (i1.now ∷ i2.now ∷ []) budget state.old) result state.new }
{
    let lent = Lent {
        table,
        first: i1,
        second: i2,
    };
    packed_ran(run(lent, state, budget))
}

// The number, and how many bytes of the buffer are the state as lines of frames: "An ill-formed state to write, or memory too short, brings 63; the
// rest of a buffer stays".
pub fn eol2_write_state(table: &[u32], i1: &[u8], i2: &[u8], state: &[u8], out: &mut [u8]) -> u64
    ensures { Fills (write_of table.now (i1.now ∷ i2.now ∷ []) state.now (length out.old)) result out.old out.new }
{
    let lent = Lent {
        table,
        first: i1,
        second: i2,
    };
    packed_filled(from_state_saving::write_state(lent, state, out))
}

// Not one with `eol2_write_state`: two calls that C makes, each of one call below.
// The number; the state is the one that the lines of frames give. "A refused call changes nothing."
pub fn eol2_read_state(table: &[u32], i1: &[u8], i2: &[u8], saved: &[u8], state: &mut [u8]) -> u64
    ensures { Reads (read_of table.now (i1.now ∷ i2.now ∷ []) saved.now state.old) result state.new }
{
    let lent = Lent {
        table,
        first: i1,
        second: i2,
    };
    packed_taken(state_restoring::read_state(lent, saved, state))
}

// The number; for each pupil of a class three numbers of the results and a part of the buffer: "the answer, count, Q1 and its length that a separate
// start and run would give, in order".
pub fn eol2_class(
    table: &[u32],
    inputs: &[u8],
    lengths: &[u32],
    budgets: &[u32],
    results: &mut [u32],
    out: &mut [u8],
) -> u64
    ensures { AnswersClass table.now (lent_of inputs.now lengths.now budgets.now results.old out.old) result results.new out.new }
{
    packed_taken(class_running::run_class(table, inputs, lengths, budgets, results, out))
}
