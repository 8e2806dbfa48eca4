// Load, start and run on the bytes of standard input, and what is printed.
// The calls are those that C makes, with their packed answers, so that the program of standard input rests on what C has.
#![tactic(auto)]

ghost use Rattle.std.specs.Prelude.{◌≡◌, [], ◌∷◌, ◌/◌, ◌%◌, ◌≤◌, length};
ghost use Rattle.layout.specs.Memory.{state_of};
ghost use Rattle.layout.specs.Table.{program_of};
ghost use Rattle.machine.specs.Runs.{ran};
ghost use Rattle.console.specs.Console.{ran_bytes, printed};
ghost use Rattle.console.specs.Parts.{Put, answer_of};
ghost use Rattle.batch.specs.Printed.{Ended, stop_by, table_bytes, printed_most};

use language::Machine;
use table::Table;

// The room for all that is printed.
pub const PRINTED: usize = 4_224;

// "It runs 100,000 steps."
const BUDGET: u32 = 100_000;

// The numbers of an accepted load or start and of a pause, as C has them. A constant calls no `usize::from`.
const ACCEPTED: usize = interpreter::ACCEPTED as usize;

const PAUSE: usize = interpreter::PAUSE as usize;

// The number in the upper 32 bits of an answer.
fn number(answer: u64) -> usize
    ensures { result ≡ answer / 4294967296 }
{
    (answer / interpreter::VALUES) as usize
}

// The line or the count in the lower.
fn value(answer: u64) -> usize
    ensures { result ≡ answer % 4294967296 }
{
    (answer % interpreter::VALUES) as usize
}

// The number that stopped a run, none for a pause.
fn stopped(answer: u64) -> Option<usize>
    ensures { result ≡ stop_by (answer / 4294967296) }
{
    let n = number(answer);
    (n != PAUSE).then_some(n)
}

// Prints the end of a run: "Q1, a new line, and one line".
fn print_run(
    table: &[u32],
    state: &[u8],
    stopped: Option<usize>,
    count: usize,
    out: &mut [u8],
) -> usize
    requires { Ended table.now state.now stopped count (length out.old) }
    ensures { Put out.old 0 (ran_bytes (program_of table.now) (ran (answer_of stopped) count (state_of state.now))) out.new result }
{
    let a = console::put(out, 0, viewing::output(state));
    let b = console::put(out, a, b"\n");
    let line = Table { cells: table }.line(viewing::next(state));
    console::put_end(out, b, stopped, line, count)
}

// Start and run on the program of a table, with the bytes of I1; I2 is empty.
fn run_table(table: &[u32], i1: &[u8], out: &mut [u8]) -> usize
    requires { printed_most ≤ length out.old }
    ensures { Put out.old 0 (table_bytes table.now (i1.now ∷ [] ∷ [])) out.new result }
{
    let mut state = [0u8; Machine::STATE];
    let started = number(interpreter::eol2_start(table, i1, b"", &mut state));
    if started != ACCEPTED {
        return console::refusal(out, started, 0);
    }
    let answer = interpreter::eol2_run(table, i1, b"", &mut state, BUDGET);
    print_run(table, &state, stopped(answer), value(answer), out)
}

// All that the program prints for the bytes of standard input.
// It goes to lent memory, with its length told: `vectors` compares it there with no heap, and `eol2` writes it out.
pub fn answer(input: &[u8], out: &mut [u8]) -> usize
    requires { printed_most ≤ length out.old }
    ensures { Put out.old 0 (printed input.now) out.new result }
{
    let end = console::text_end(input);
    let mut table = [0u32; Machine::TABLE];
    let loaded = interpreter::eol2_load(&input[..end], &mut table);
    let n = number(loaded);
    if n != ACCEPTED {
        return console::refusal(out, n, value(loaded));
    }
    run_table(&table, &input[end..], out)
}
