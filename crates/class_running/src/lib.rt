// A class of sixteen: one program on the work of up to sixteen pupils.
#![tactic(auto)]

ghost use Rattle.std.specs.Prelude.{◌≡◌, ◌+◌, ◌≤◌, length};
ghost use Rattle.cells.specs.Cells.{pasted};
ghost use Rattle.class_calls.specs.Class.{pupil, sum, fits_by, lent_of};
ghost use Rattle.class_running.specs.ClassRunning.{told_cells, Showable, Shown, Seated, Answered, Classable, Written, Classes};

use calls::Question;
use language::Machine;
use running::Ran;
use tasks::Task;
use tasks::from_table::Table;

// The most pupils of a class.
const CLASS: usize = 16;

// What is told of a pupil: its run, and the length of Q1.
#[derive(Clone, Copy, Debug, PartialEq, Eq)]
pub struct Told {
    pub ran: Ran,
    pub length: u32,
}

// The lengths added up.
fn sum(lengths: &[u32]) -> usize
    requires { length lengths.now ≤ 16 }
    ensures { result ≡ sum lengths.now }
{
    lengths.iter().map(|n| *n as usize).sum()
}

// Question 71, of the lengths and of how many budgets, bytes, cells and bytes of the buffer there are.
fn fits(lengths: &[u32], budgets: usize, bytes: usize, cells: usize, room: usize) -> bool
    ensures { result ≡ fits_by lengths.now budgets bytes cells room }
{
    let n = lengths.len();
    n <= CLASS
        && budgets == n
        && sum(lengths) == bytes
        && 3 * n <= cells
        && Machine::OUTPUT * n <= room
}

// Copies Q1 of a state at rest; returns its length.
fn show(state: &[u8], out: &mut [u8], at: usize) -> u32
    requires { Showable state.now at (length out.old) }
    ensures { Shown state.now out.old at result out.new }
{
    let q = viewing::output(state);
    cells::put(out, at, q);
    q.len() as u32
}

// Start and run for one pupil, with Q1 copied to its part of the buffer.
fn run_pupil<'a>(
    table: Table<'a>,
    input: &'a [u8],
    budget: u32,
    state: &mut [u8],
    out: &mut [u8],
    at: usize,
) -> Result<Told, Question>
    requires { Seated table.cells.now (length state.old) at (length out.old) }
    ensures { Answered (pupil table.entry.cells.now input.now budget) out.old at result out.new }
{
    if !check_inputs::are_inputs(input, b"") {
        return Err(Question::Inputs);
    }
    starting::start(state);
    let task = Task {
        table,
        first: input,
        second: b"",
    };
    let ran = running::run(task, state, budget);
    let length = show(state, out, at);
    Ok(Told { ran, length })
}

// Number, count and length of Q1, as the results for C have them: "A refused input has count 0, an empty Q1".
fn result_cells(told: Result<Told, Question>) -> [u32; 3]
    ensures { result ≡ told_cells told }
{
    match told {
        Ok(t) => [u32::from(t.ran.number()), t.ran.count, t.length],
        Err(q) => [u32::from(u8::from(q)), 0, 0],
    }
}

// Writes number, count and length to three cells.
fn write_result(results: &mut [u32], at: usize, told: Result<Told, Question>)
    requires { at + 3 ≤ length results.old }
    ensures { results.new ≡ pasted results.old at (told_cells told) }
{
    results[at..at + 3].copy_from_slice(&result_cells(told));
}

// One pupil after the other.
// Inputs, lengths, budgets, results and buffer come as `run_class` gets them from C: a struct of five slices would be made here to be taken apart.
// No `zip` with the budgets: the index is needed for the part of the results and of the buffer, and finds the budget too.
fn run_pupils(
    table: Table,
    inputs: &[u8],
    lengths: &[u32],
    budgets: &[u32],
    state: &mut [u8],
    results: &mut [u32],
    out: &mut [u8],
)
    requires { Classable table.cells.now inputs.now lengths.now budgets.now results.old out.old (length state.old) }
    ensures { Written table.entry.cells.now inputs.now lengths.now budgets.now results.old out.old results.new out.new }
{
    let mut from = 0;
    for (k, length) in lengths.iter().enumerate() {
        let end = from + *length as usize;
        let told = run_pupil(
            table,
            &inputs[from..end],
            budgets[k],
            state,
            out,
            Machine::OUTPUT * k,
        );
        write_result(results, 3 * k, told);
        from = end;
    }
}

// "One call takes a table and up to 16 inputs for I1, laid end to end with their lengths, and one budget for each."
// The class is taken, or 62 or 71 is answered no. The parameters are those that C lends.
pub fn run_class(
    table: &[u32],
    inputs: &[u8],
    lengths: &[u32],
    budgets: &[u32],
    results: &mut [u32],
    out: &mut [u8],
) -> Result<(), Question>
    ensures { Classes table.now (lent_of inputs.now lengths.now budgets.now results.old out.old) result results.new out.new }
{
    if !check_table::is_table(table) {
        return Err(Question::Table);
    }
    if !fits(
        lengths,
        budgets.len(),
        inputs.len(),
        results.len(),
        out.len(),
    ) {
        return Err(Question::Class);
    }
    let mut state = [0u8; Machine::STATE];
    let table = Table { cells: table };
    run_pupils(table, inputs, lengths, budgets, &mut state, results, out);
    Ok(())
}

// Of `running`, passed on to the crates above.
pub mod from_running {
    pub use running::{PAUSE, Ran, run};
}
