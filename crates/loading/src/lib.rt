// From a text without macros to the program table, or the number and the line of the first question answered no.
#![tactic(auto)]

ghost use Rattle.std.specs.Prelude.{◌≤◌, length};
ghost use Rattle.language.specs.Limits as limit;
ghost use Rattle.syntax.specs.Load.{text_loads, load_typed};
ghost use Rattle.loading.specs.Texts.{Fillable, Fills, Unread, ReadsText, Loadable, LoadsText, Refuses, Lent, Leaves, Fit};

use finishing::from_progress::{Progress, begin};
use language::Machine;
use lexer::line_at;
use reading_statements::read_statement;
use statements::{Refusal, Rejected, Verdict};
use writing::clear_table;

// The text is accepted, or it is rejected.
pub type Loaded = Result<(), Rejected>;

// The line of each byte of a text, from 1.
fn fill_lines(text: &[u8], lines: &mut [u16])
    requires { Fillable text.now lines.old }
    ensures { Fills text.now lines.new }
{
    let mut line = 1;
    for (i, byte) in text.iter().enumerate() {
        lines[i] = line;
        line += u16::from(b'\n' == *byte);
    }
}

// All statements, one after the other. The rows are lent one by one, as `read_statement` takes them.
fn read_statements(
    text: &[u8],
    lines: &[u16],
    names: &mut [u32; Machine::TEXT],
    table: &mut [u32],
    switches: &mut [u32; Machine::SWITCHES],
    entries: &mut [u32; Machine::ENTRIES],
) -> Result<Progress, Refusal>
    requires { Unread text.now lines.now table.old switches.old entries.old }
    ensures { ReadsText text.now lines.now table.old result names.new table.new switches.new entries.new }
{
    let mut p = begin();
    let mut next = Some(0);
    while let Some(n) = next {
        let a = read_statement(text, lines, n, &mut p, names, table, switches, entries);
        a.read?;
        next = a.next;
    }
    Ok(p)
}

// Reads a text on a table of zeros, with room for its switches and their entries, and with a row for the names of its labels.
fn load_text(
    text: &[u8],
    lines: &[u16],
    names: &mut [u32; Machine::TEXT],
    table: &mut [u32],
) -> Verdict
    requires { Loadable text.now lines.now table.old }
    ensures { LoadsText text.now lines.now table.old result table.new }
{
    let mut switches = [0u32; Machine::SWITCHES];
    let mut entries = [0u32; Machine::ENTRIES];
    let p = read_statements(text, lines, names, table, &mut switches, &mut entries)?;
    finishing::finish(text, p, names, table, &switches, &entries)
}

// "after other refusals its 8,192 cells are zeros"
// Not one with `answered` of `macro_preparing`: that finds the line in the text and has no table to clear.
fn refuse(lines: &[u16], r: Refusal, cells: &mut [u32]) -> Rejected
    requires { limit.table ≤ length cells.old }
    ensures { Refuses lines.now r.question r.at cells.old result cells.new }
{
    clear_table(cells);
    Rejected {
        question: r.question,
        line: u32::from(line_at(lines, r.at)),
    }
}

// On a table that is long enough, with the lines of the text's bytes. The row `names` is for use here alone.
// A match and no `map_err`: a proof knows nothing of the cells that a closure borrows and changes.
pub fn load_lined(
    text: &[u8],
    lines: &[u16],
    names: &mut [u32; Machine::TEXT],
    table: &mut [u32],
) -> Loaded
    requires { Lent text.now lines.now table.old }
    ensures { Leaves (text_loads text.now lines.now) table.old result table.new }
{
    clear_table(table);
    match load_text(text, lines, names, table) {
        Ok(()) => Ok(()),
        Err(r) => Err(refuse(lines, r, table)),
    }
}

// The same of a text as it stands, with its own lines.
pub fn load_typed(text: &[u8], table: &mut [u32]) -> Loaded
    requires { Fit text.now table.old }
    ensures { Leaves (load_typed text.now) table.old result table.new }
{
    let mut lines = [0u16; Machine::TEXT];
    fill_lines(text, &mut lines);
    let mut names = [0u32; Machine::TEXT];
    load_lined(text, &lines[..text.len()], &mut names, table)
}
