// Question 63: "State long enough, and for run well formed?" It is asked after 62 and 61.
#![tactic(auto)]

ghost use Rattle.std.specs.Prelude.{◌≡◌, [], ◌∷◌, T, length};
ghost use Rattle.lists.specs.Lists.{all};
ghost use Rattle.layout.specs.Memory.{twos_in, good_memory};
ghost use Rattle.layout.specs.Table.{program_of, good_table};
ghost use Rattle.machine.specs.WellFormed.{good_return};
ghost use Rattle.check_memory.specs.Passes.{sound_stack, sound_output, fitting};
ghost use Rattle.check_state.specs.Asked.{Asked, Workable, passes};

use check_memory::Memory;
use language::Machine;
use layout::StatePlaces;
use tasks::Task;
use tasks::from_table::Table;

// Whether an entry of the stack stands just after a call. The table is well formed, here and in the next three: a struct that knows it would be made for
// them alone.
fn is_return(table: Table, n: usize) -> bool
    requires { T (good_table table.cells.now) }
    ensures { result ≡ good_return (program_of table.entry.cells.now) n }
{
    let Some(i) = n.checked_sub(1) else {
        return false;
    };
    if table.instructions() <= i {
        return false;
    }
    forms::is_call(table.operator(i))
}

fn are_returns(table: Table, s: &[u8]) -> bool
    requires { T (good_table table.cells.now) }
    ensures { result ≡ all (good_return (program_of table.entry.cells.now)) (twos_in s.now) }
{
    (0..s.len() / 2).all(|k| is_return(table, cells::two_at(s, 2 * k)))
}

// An even count of cells, at most two for each place of the stack.
fn is_stack(table: Table, s: &[u8]) -> bool
    requires { T (good_table table.cells.now) }
    ensures { result ≡ sound_stack (program_of table.entry.cells.now) s.now }
{
    (s.len() % 2 == 0) & (s.len() <= 2 * Machine::STACK) & are_returns(table, s)
}

fn is_output(s: &[u8]) -> bool
    ensures { result ≡ sound_output s.now }
{
    (s.len() <= Machine::OUTPUT) & characters::all_known(s)
}

// Whether stack, outputs, read places and next instruction fit the program and the inputs.
fn is_fitting(task: Task, memory: &Memory) -> bool
    requires { T (good_table task.table.cells.now) }
    ensures { result ≡ fitting (program_of task.entry.table.cells.now) task.entry.first.now task.entry.second.now memory.now }
{
    let m = memory.cells();
    is_stack(task.table, memory.string(StatePlaces::STACK_STRING))
        & (is_output(memory.string(StatePlaces::FIRST_OUTPUT))
            & is_output(memory.string(StatePlaces::SECOND_OUTPUT)))
        & ((cells::three_at(m, StatePlaces::FIRST_PLACE_CELL) <= task.first.len())
            & (cells::three_at(m, StatePlaces::SECOND_PLACE_CELL) <= task.second.len()))
        & (cells::three_at(m, StatePlaces::NEXT_CELL) < task.table.instructions())
}

// The tests in their order. `list` is for the addresses of the records.
fn is_passed(task: Task, m: &[u8], list: &mut [u32]) -> bool
    requires { Workable task.table.cells.now m.now (length list.old) }
    ensures { result ≡ passes task.entry.table.cells.now task.entry.first.now task.entry.second.now m.now }
{
    let Some(memory) = Memory::laid(m) else {
        return false;
    };
    if !memory.is_sound() {
        return false;
    }
    if !memory.is_counted() {
        return false;
    }
    if !memory.is_distinct(list) {
        return false;
    }
    is_fitting(task, &memory)
}

pub fn is_state(task: Task, state: &[u8]) -> bool
    requires { Asked task.table.cells.now task.first.now task.second.now }
    ensures { result ≡ good_memory (program_of task.entry.table.cells.now) (task.entry.first.now ∷ task.entry.second.now ∷ []) state.now }
{
    if state.len() < Machine::STATE {
        return false;
    }
    let mut list = [0u32; Machine::RECORDS];
    is_passed(task, &state[..Machine::STATE], &mut list)
}
