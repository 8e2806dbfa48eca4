// A judged statement with an instruction comes to the program table: question 11, then its labels, its texts and numbers, and the instruction.
#![tactic(auto)]

ghost use Rattle.std.specs.Prelude.{◌≡◌, [], ◌∷◌};
ghost use Rattle.names.specs.Below.DraftsMarks.{word_by};
ghost use Rattle.writing.specs.Writing.{Changes, with_label, label_of};
ghost use Rattle.argument_cells.specs.Below.Entering.{Held, EnterableValues};
ghost use Rattle.declaring.specs.Declaring.{with_labels, labels_by, Nameable, Labelling, LabelsTold, InstrTold, JudgesValues, Writable, WritesValues, Declarable, DeclaresValues};
ghost use Rattle.statements.specs.StatementAt.{fault_of};
ghost use Rattle.syntax.specs.Questions.{beyond};

use argument_cells::argument_cell;
use argument_cells::from_arguments::Value;
use language::{Machine, Operator};
use names::lowest_mark;
use statements::{Fault, lower};
use table::Table;

// An instruction: its operator, where that stands and in which line, and its arguments. Its labels are no field: they are the statement's, lent from the row
// of names.
#[derive(Clone, Copy, Debug, PartialEq, Eq)]
pub struct Instruction {
    pub operator: Operator,
    pub at: usize,
    pub line: usize,
    pub values: [Value; 3],
}

// The lowest of the labels in excess.
fn labels_beyond(table: Table, labels: &[u32]) -> Fault
    requires { Held table.cells.now }
    ensures { LabelsTold table.entry.cells.now labels.now result }
{
    let room = Machine::LABELS - table.labels();
    lowest_mark(labels.get(room..)?)
}

// The place `at`, where `count` are there and there may be no more than `most`.
pub fn in_excess(count: usize, most: usize, at: usize) -> Fault
    ensures { result ≡ fault_of (beyond most count (at ∷ [])) }
{
    (most <= count).then_some(at)
}

// The operator's place, where the instruction is one in excess.
fn instruction_beyond(table: Table, at: usize) -> Fault
    ensures { InstrTold table.entry.cells.now at result }
{
    in_excess(table.instructions(), Machine::INSTRUCTIONS, at)
}

// Question 11 of an instruction; the texts and numbers of its arguments come to the table.
fn judge_instruction(text: &[u8], i: Instruction, labels: &[u32], table: &mut [u32]) -> Fault
    requires { EnterableValues text.now i.values table.old }
    ensures { JudgesValues text.now i.at i.values labels.now table.old result table.new }
{
    let values = i.values;
    let a = instruction_beyond(Table { cells: table }, i.at);
    let b = labels_beyond(Table { cells: table }, labels);
    let c = argument_cells::from_entering::enter_text_values(text, values, table);
    let d = argument_cells::from_entering::enter_number_values(values, table);
    lower(lower(lower(a, b), c), d)
}

// Adds the label of a mark.
fn put_name(text: &[u8], m: usize, target: usize, table: &mut [u32])
    requires { Nameable text.now m target table.old }
    ensures { Changes (with_label (label_of (word_by text.now m) target)) table.old table.new }
{
    writing::put_label(table, drafts::word_of(text, m), target);
}

// Adds the labels of some marks.
fn put_labels(text: &[u8], labels: &[u32], target: usize, table: &mut [u32])
    requires { Labelling text.now labels.now target table.old }
    ensures { Changes (with_labels (labels_by text.now target labels.now)) table.old table.new }
{
    for mark in labels {
        put_name(text, *mark as usize, target, table);
    }
}

// Adds the labels and the instruction.
fn write_instruction(text: &[u8], i: Instruction, labels: &[u32], table: &mut [u32])
    requires { Writable text.now i labels.now table.old }
    ensures { WritesValues text.now i labels.now table.old table.new }
{
    let [first, second, third] = i.values;
    let target = Table { cells: table }.instructions();
    put_labels(text, labels, target, table);
    let draft = Table { cells: table };
    let arguments = [
        argument_cell(text, first.argument, draft),
        argument_cell(text, second.argument, draft),
        argument_cell(text, third.argument, draft),
    ];
    writing::put_instruction(table, usize::from(u8::from(i.operator)), i.line, arguments);
}

// Question 11 of an instruction, and where it is answered yes, the instruction with its labels, of which the marks are lent.
pub fn declare_instruction(text: &[u8], i: Instruction, labels: &[u32], table: &mut [u32]) -> Fault
    requires { Declarable text.now i labels.now table.old }
    ensures { DeclaresValues text.now i labels.now table.old result table.new }
{
    let fault = judge_instruction(text, i, labels, table);
    if fault.is_none() {
        write_instruction(text, i, labels, table);
    }
    fault
}

// Of `argument_cells`, passed on to the crates above.
pub mod from_argument_cells {
    pub use argument_cells::text_of;
}

// Of `arguments`, passed on to the crates above.
pub mod from_arguments {
    pub use argument_cells::from_arguments::Quoted;
}

// Of `entering`, passed on to the crates above.
pub mod from_entering {
    pub use argument_cells::from_entering::enter_text_of;
}

// Of `names`, passed on to the crates above.
pub mod from_names {
    pub use names::lowest_mark;
}
