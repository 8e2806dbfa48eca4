// A run under a budget: the lent state is laid out, stepped and written back.
#![tactic(auto)]

ghost use Rattle.stepping.specs.Below.Stepping.{Steppable};
ghost use Rattle.std.specs.Prelude.{◌≡◌};
ghost use Rattle.running.specs.Running.{stop_number, RanTo, Runnable, RanOn};

use instructions::{Bench, Question, Task};
use layout::StatePlaces;
use state::{Scalars, Working};
use strings::Strings;

// The number of a pause.
pub const PAUSE: u8 = 81;

// The answer of a run: the question that stopped it, none for a pause; and how many instructions were completed.
#[derive(Clone, Copy, Debug, PartialEq, Eq)]
pub struct Ran {
    pub stopped: Option<Question>,
    pub count: u32,
}

impl Ran {
    // The number that C gets.
    pub fn number(self) -> u8
        ensures { result ≡ stop_number self.stopped }
    {
        self.stopped.map_or(PAUSE, u8::from)
    }
}

// Steps until the count equals the budget, or an instruction stops.
fn run_steps(task: Task, bench: &mut Bench, budget: u32) -> Ran
    requires { Steppable task.table.cells.now task.first.now task.second.now bench.old.state }
    ensures { RanTo task.entry.table.cells.now task.entry.first.now task.entry.second.now budget bench.old.state result bench.new.state }
{
    for count in 0..budget {
        if let Err(q) = stepping::step(task, bench) {
            return Ran {
                stopped: Some(q),
                count,
            };
        }
    }
    Ran {
        stopped: None,
        count: budget,
    }
}

// Runs the program of a well-formed table on a well-formed state.
pub fn run(task: Task, state: &mut [u8], budget: u32) -> Ran
    requires { Runnable task.table.cells.now task.first.now task.second.now state.old }
    ensures { RanOn task.entry.table.cells.now task.entry.first.now task.entry.second.now budget state.old result state.new }
{
    let strings = Strings::new();
    let scalars = Scalars::default();
    let hold = [0; StatePlaces::ROW];
    let given = [0; StatePlaces::ROW];
    let mut bench = Bench {
        state: Working { strings, scalars },
        hold,
        given,
    };
    resting::open(&mut bench.state, state);
    let r = run_steps(task, &mut bench, budget);
    resting::write(&bench.state, state);
    r
}
