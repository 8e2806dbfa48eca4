// A judged statement with a switch comes to the program table: question 11, then its texts, the switch and its entries.
#![tactic(auto)]

ghost use Rattle.table.specs.Denote.{ref_number};
ghost use Rattle.declaring_switches.specs.DeclaringSwitches.{SwitchTold, JudgeableSwitch, JudgesSwitch};
ghost use Rattle.declaring_switches.specs.Entries.{RowNamed, RowTold, RowEntered};
ghost use Rattle.declaring_switches.specs.Switches.{WritableSwitch, WritesSwitch, DeclarableSwitch, DeclaresSwitch};

use declaring::from_arguments::Quoted;
use declaring::{from_argument_cells, from_entering, in_excess};
use language::Machine;
use statements::{Fault, lower};
use switch_lists::Listed;
use table::{Table, TextRef};

// A switch as its statement gives it: the place of its operator, the place where its list begins, whether it is NAZWA, the mark of its name, and what its
// list has. Only contracts read `begin`; it is no ghost field, since such a field holds a proposition, and no number.
// A flag, as `goes_by_name : Bool` is in the specification of a switch: no third type of switch is possible, and the table has the flag in a cell.
#[derive(Clone, Copy, Debug, PartialEq, Eq)]
pub struct Declaration {
    pub at: usize,
    pub begin: usize,
    pub named: bool,
    pub name: u32,
    pub list: Listed,
}

// The operator's place, where the switch is one in excess.
fn switch_beyond(table: Table, at: usize) -> Fault
    ensures { SwitchTold table.entry.cells.now at result }
{
    in_excess(table.switches(), Machine::SWITCHES, at)
}

// Adds the text of an entry, if it has one; `Err` is its place, where there is no room for it.
fn enter_entry(text: &[u8], entry: Option<Quoted>, table: &mut [u32]) -> Result<(), usize>
    requires { RowNamed text.now entry table.old }
    ensures { RowEntered text.now entry table.old result table.new }
{
    match entry {
        Some(q) => from_entering::enter_text_of(text, q, table),
        None => Ok(()),
    }
}

// Question 11; the texts of the list come to the table, entry by entry, up to the first that has no room.
fn judge_switch(text: &[u8], d: Declaration, table: &mut [u32], texts: &[Option<Quoted>]) -> Fault
    requires { JudgeableSwitch text.now d table.old texts.now }
    ensures { JudgesSwitch text.now d table.old result table.new }
{
    let fault = lower(switch_beyond(Table { cells: table }, d.at), d.list.over);
    for entry in texts {
        if let Err(at) = enter_entry(text, *entry, table) {
            return lower(fault, Some(at));
        }
    }
    fault
}

// The reference of the text of an entry.
fn entry_ref(text: &[u8], entry: Option<Quoted>, table: Table) -> TextRef
    requires { RowNamed text.now entry table.cells.now }
    ensures { RowTold text.now entry table.entry.cells.now (ref_number result) }
{
    match entry {
        Some(q) => from_argument_cells::text_of(text, q, table),
        None => TextRef::Empty,
    }
}

// Adds the switch with the entries of its list, and the mark of its name.
fn write_switch(
    text: &[u8],
    d: Declaration,
    table: &mut [u32],
    switches: &mut [u32; Machine::SWITCHES],
    texts: &[Option<Quoted>],
)
    requires { WritableSwitch text.now d table.old texts.now }
    ensures { WritesSwitch text.now d table.old switches.old table.new switches.new }
{
    let n = Table { cells: table }.switches();
    writing::put_switch(table, d.named);
    for entry in texts {
        let v = entry_ref(text, *entry, Table { cells: table });
        writing::put_entry(table, 0, v);
    }
    switches[n] = d.name;
}

// Question 11 of a switch, and where it is answered yes, the switch. `texts` has a cell for each entry of its list, up to the last that has room.
pub fn declare_switch(
    text: &[u8],
    d: Declaration,
    table: &mut [u32],
    switches: &mut [u32; Machine::SWITCHES],
    texts: &[Option<Quoted>],
) -> Fault
    requires { DeclarableSwitch text.now d table.old texts.now }
    ensures { DeclaresSwitch text.now d table.old switches.old result table.new switches.new }
{
    let fault = judge_switch(text, d, table, texts);
    if fault.is_none() {
        write_switch(text, d, table, switches, texts);
    }
    fault
}

// Of `arguments`, passed on to the crates above.
pub mod from_arguments {
    pub use switch_lists::from_arguments::{Quoted, read_arguments};
}

// Of `declaring`, passed on to the crates above.
pub mod from_declaring {
    pub use declaring::{Instruction, declare_instruction};
}

// Of `switch_lists`, passed on to the crates above.
pub mod from_switch_lists {
    pub use switch_lists::{Listed, read_list};
}
