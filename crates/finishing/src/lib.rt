// The end of a text: the last questions, and the program in the table.
#![tactic(auto)]

ghost use Rattle.std.specs.Prelude.{◌≡◌};
ghost use Rattle.syntax.specs.Ending.{last_place};
ghost use Rattle.finishing.specs.Finishing.{Finishable, Finishes};

use language::Machine;
use names::lowest_mark;
use progress::Progress;
use statements::{Question, Verdict, decide, refused};
use table::Table;

// The place of the last byte, 0 in an empty text.
fn last_place(text: &[u8]) -> usize
    ensures { result ≡ last_place text.now }
{
    text.len().saturating_sub(1)
}

// The questions of the whole text, in this order: 00, where there is no statement; 25; 12; 13.
pub fn finish(
    text: &[u8],
    p: Progress,
    names: &[u32; Machine::TEXT],
    table: &mut [u32],
    switches: &[u32; Machine::SWITCHES],
    entries: &[u32; Machine::ENTRIES],
) -> Verdict
    requires { Finishable text.now p names.now table.old switches.now entries.now }
    ensures { Finishes text.now p names.now table.old switches.now entries.now result table.new }
{
    let last = last_place(text);
    if p.section.is_none() {
        return refused(Question::Heading, last);
    }
    let waiting = lowest_mark(&names[p.first_waiting()..p.names]);
    let code = Table { cells: table }.instructions();
    let ended = p.ended;
    let fault = progress::end_fault(last, p.closing, code, ended, waiting);
    decide(Question::End, fault)?;
    linking::resolve(text, table, switches, entries)
}

// Of `progress`, passed on to the crates above.
pub mod from_progress {
    pub use progress::{Progress, begin};
}
