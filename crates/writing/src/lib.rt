// Writing a program table, "a table of 8,192 numbers of 32 bits", cell by cell while a text is read: the only code that writes its cells.
// docs/LAYOUT.md has their places. A text or a number goes to its table before the argument that refers to it.
// All take the lent slice and ask for its length: of a struct around a `&mut` it is not known, once that is let go, what the slice holds.
#![tactic(auto)]

ghost use Rattle.std.specs.Prelude.{◌≤◌, length, get_or};
ghost use Rattle.writing.specs.Writing.{with_text, with_number, with_label, with_instr, with_switch, with_entry, with_argument, with_entry_label, label_of, Cleared, Changes, Writes, Room, WordRoom, LabelRoom, InstrRoom, SwitchRoom, EntryRoom, ArgumentAt, EntryAt, IsNumber, IsInstr, IsEntry, IsArg};
ghost use Rattle.table.specs.Denote.{ref_number};
ghost use Rattle.blocks.specs.Below.Limits as limit;
ghost use Rattle.blocks.specs.Below.LayoutPlaces.{text_count, number_count};

use blocks::from_cells;
use blocks::from_language::Machine;
use layout::{EntryCell, Pair, SwitchCell, TablePlaces};
use table::{Table, TextRef};

// Sets all cells to 0, which is the empty program.
pub fn clear_table(table: &mut [u32])
    requires { limit.table ≤ length table.old }
    ensures { Cleared table.old table.new }
{
    blocks::clear_cells(table, Machine::TABLE);
}

// Adds a text.
// Not one with `put_label`: all that they share is `put_named` and a count.
pub fn put_text(table: &mut [u32], word: &[u8])
    requires { WordRoom table.old text_count limit.texts (length word.now) }
    ensures { Changes (with_text word.now) table.old table.new }
{
    let n = Table { cells: table }.texts();
    blocks::put_named(
        table,
        TablePlaces::FIRST_TEXT + TablePlaces::TEXT_SIZE * n,
        word.len(),
        word,
    );
    from_cells::write(table, TablePlaces::TEXT_COUNT, n + 1);
}

// Adds the number whose value + 8,388,607 is `code`.
pub fn put_number(table: &mut [u32], code: u32)
    requires { Room table.old number_count limit.numbers }
    ensures { Writes (IsNumber code) with_number table.old table.new }
{
    let n = Table { cells: table }.numbers();
    table[TablePlaces::FIRST_NUMBER + n] = code;
    from_cells::write(table, TablePlaces::NUMBER_COUNT, n + 1);
}

// Adds a label of instruction `target`.
pub fn put_label(table: &mut [u32], name: &[u8], target: usize)
    requires { LabelRoom table.old (length name.now) target }
    ensures { Changes (with_label (label_of name.now target)) table.old table.new }
{
    let n = Table { cells: table }.labels();
    blocks::put_named(
        table,
        TablePlaces::FIRST_LABEL + TablePlaces::LABEL_SIZE * n,
        Pair {
            first: name.len(),
            second: target,
        }
        .number(),
        name,
    );
    from_cells::write(table, TablePlaces::LABEL_COUNT, n + 1);
}

// Adds an instruction: its operator's number, its line, and the cells of its three arguments.
pub fn put_instruction(table: &mut [u32], op: usize, line: usize, arguments: [usize; 3])
    requires { InstrRoom table.old op line (get_or arguments 0 0) (get_or arguments 1 0) (get_or arguments 2 0) }
    ensures { Writes (IsInstr op line (get_or arguments 0 0) (get_or arguments 1 0) (get_or arguments 2 0)) with_instr table.old table.new }
{
    let [x, y, z] = arguments;
    let n = Table { cells: table }.instructions();
    blocks::put_four(
        table,
        TablePlaces::FIRST_INSTRUCTION + TablePlaces::INSTRUCTION_SIZE * n,
        Pair {
            first: op,
            second: line,
        }
        .number(),
        x,
        y,
        z,
    );
    from_cells::write(table, TablePlaces::INSTRUCTION_COUNT, n + 1);
}

// Adds a switch, NAZWA or INDEKS, that has no entries yet. `named` is the program's `goes_by_name`, a Bool, so an enum would add a mapping.
pub fn put_switch(table: &mut [u32], named: bool)
    requires { SwitchRoom table.old }
    ensures { Changes (with_switch named) table.old table.new }
{
    let n = Table { cells: table }.switches();
    let first = Table { cells: table }.entries();
    let switch = SwitchCell {
        named,
        count: 0,
        first,
    };
    from_cells::write(table, TablePlaces::FIRST_SWITCH + n, switch.number());
    from_cells::write(table, TablePlaces::SWITCH_COUNT, n + 1);
}

// Adds an entry to the last switch: its label, and its text.
pub fn put_entry(table: &mut [u32], label: usize, text: TextRef)
    requires { EntryRoom table.old label (ref_number text) }
    ensures { Writes (IsEntry label (ref_number text)) with_entry table.old table.new }
{
    let n = Table { cells: table }.entries();
    let last = TablePlaces::FIRST_SWITCH - 1 + Table { cells: table }.switches();
    let switch = SwitchCell::of(from_cells::read(table, last));
    let entry = EntryCell {
        label,
        text: text.number(),
    };
    let longer = SwitchCell {
        count: switch.count + 1,
        ..switch
    };
    from_cells::write(table, TablePlaces::FIRST_ENTRY + n, entry.number());
    from_cells::write(table, last, longer.number());
    from_cells::write(table, TablePlaces::ENTRY_COUNT, n + 1);
}

// Puts `cell` in the place of argument `j`, counted from 0, of instruction `k`.
pub fn set_argument(table: &mut [u32], k: usize, j: usize, cell: usize)
    requires { ArgumentAt table.old k j cell }
    ensures { Writes (IsArg cell) (with_argument k j) table.old table.new }
{
    from_cells::write(
        table,
        TablePlaces::FIRST_ARGUMENT + TablePlaces::INSTRUCTION_SIZE * k + j,
        cell,
    );
}

// Gives entry `k` of all entries the label `label`.
pub fn set_entry_label(table: &mut [u32], k: usize, label: usize)
    requires { EntryAt table.old k label }
    ensures { Changes (with_entry_label k label) table.old table.new }
{
    let entry = EntryCell::of(from_cells::read(table, TablePlaces::FIRST_ENTRY + k));
    from_cells::write(
        table,
        TablePlaces::FIRST_ENTRY + k,
        EntryCell { label, ..entry }.number(),
    );
}
