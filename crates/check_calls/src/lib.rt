// The questions that every call on one state asks first: 62 of the table and 61 of the inputs.
#![tactic(auto)]

ghost use Rattle.check_calls.specs.Asked.{Asks};

use calls::Question;
use tasks::from_table::Table;
use tasks::{Lent, Task};

// What is lent as a task, or the first question answered no of it: 62 of the table, then 61 of the inputs.
pub fn ask(lent: Lent) -> Result<Task, Question>
    ensures { Asks lent.entry.table.now lent.entry.first.now lent.entry.second.now result }
{
    if !check_table::is_table(lent.table) {
        return Err(Question::Table);
    }
    if !check_inputs::are_inputs(lent.first, lent.second) {
        return Err(Question::Inputs);
    }
    Ok(Task {
        table: Table { cells: lent.table },
        first: lent.first,
        second: lent.second,
    })
}
