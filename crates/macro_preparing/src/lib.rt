// A text with macros made ready for loading: it "meets 14 to 16 as a whole, then 64 to 66; then the written-out text is loaded as if typed".
#![tactic(auto)]

ghost use Rattle.std.specs.Prelude.{◌≡◌, ◌≤◌, length};
ghost use Rattle.language.specs.Limits as limit;
ghost use Rattle.statements.specs.Faults.{lower, decided, verdict_of, then};
ghost use Rattle.macro_preparing.specs.Preparing.{Preparable, Prepares};
ghost use Rattle.macro_preparing.specs.Rows.{Readable, RowsRead, Expands, Answered};

use language::Machine;
use macro_calls::{Hinted, Listed, find_singles, typed_faults};
use macro_code::{CodePlaces, Coded, Faults};
use macro_elements::Source;
use macro_heights::find_heights;
use macro_lines::{find_lines, line_of};
use macro_marks::mark_joins;
use macro_questions::ask_whole;
use macro_reading::{Listing, read_macros};
use macro_section::from_macro_expansion::Macros;
use macro_section::{WrittenOut, write_section};
use statements::{Fault, Question, Rejected, Verdict, decide, first_of, lower};

// For every other place of a text, a hint: the macro of the call there.
const HINTS: usize = Machine::TEXT / 2;

// The rows that are filled beside the cells of a list of macros, which are lent: the first cell of each macro; the hints for calls; and of each
// macro its two heights, and whether it is the only one of its name. Each has a row of its own, since `find_heights` fills two of them while it reads
// the others.
#[derive(Drop)]
struct Rows {
    firsts: [u16; CodePlaces::MACROS],
    hints: [u16; HINTS],
    quiet: [u8; CodePlaces::MACROS],
    loose: [u8; CodePlaces::MACROS],
    singles: [bool; CodePlaces::MACROS],
}

// The list of macros and the section that were read, and the lowest places at fault of the calls as typed.
#[derive(Clone, Copy, Debug, PartialEq, Eq)]
struct Reading {
    listing: Listing,
    typed: Faults,
}

// Questions 64, 65 and 66.
fn ask_macros(form: Fault, typed: Faults, w: WrittenOut) -> Verdict
    ensures { verdict_of result ≡ then (decided 64 (lower form (lower typed.unknown w.state.faults.unknown))) (then (decided 65 (lower typed.uneven w.state.faults.uneven)) (decided 66 w.long)) }
{
    let calls = typed.and(w.state.faults);
    let sixty_four = decide(Question::Macros, lower(form, calls.unknown));
    let sixty_five = decide(Question::Call, calls.uneven);
    let sixty_six = decide(Question::Expansion, w.long);
    first_of(sixty_four, first_of(sixty_five, sixty_six))
}

// Reads a text and its marked copy into the rows.
fn read_rows(source: &Source, code: &mut [u32], rows: &mut Rows) -> Reading
    requires { Readable source.now.text.now source.now.marked.now code.old }
    ensures { RowsRead source.now.text.now code.new rows.new.firsts rows.new.quiet rows.new.loose rows.new.singles result }
{
    let listing = read_macros(source, code, &mut rows.firsts);
    let list = Listed {
        coded: Coded {
            text: source.text,
            code,
        },
        firsts: &rows.firsts[..listing.count],
    };
    let typed = typed_faults(&list, &mut rows.hints, listing.section);
    find_singles(&list, &mut rows.singles);
    let hinted = Hinted {
        listed: list,
        singles: &rows.singles,
        hints: &rows.hints,
    };
    find_heights(&hinted, &mut rows.quiet, &mut rows.loose);
    Reading { listing, typed }
}

// What a verdict says of a text.
fn answered(text: &[u8], v: Verdict) -> Result<(), Rejected>
    requires { length text.now ≤ limit.text }
    ensures { Answered text.now v result }
{
    v.map_err(|r| Rejected {
        question: r.question,
        line: line_of(text, r.at) as u32,
    })
}

// Asks the questions of a text with macros and writes its section, with the place that each byte comes from; and how many bytes it has. There is
// no heap, so the marked copy lies at the beginning of the row that is written out later.
fn expand(
    text: &[u8],
    code: &mut [u32],
    rows: &mut Rows,
    out: &mut [u8],
    places: &mut [u16],
) -> Result<usize, Rejected>
    requires { Preparable text.now out.old places.old code.old }
    ensures { Expands text.now result out.new places.new }
{
    let marked = &mut out[..text.len()];
    mark_joins(text, marked);
    answered(text, ask_whole(text, marked))?;
    let r = read_rows(&Source { text, marked }, code, rows);
    let list = Macros {
        hinted: Hinted {
            listed: Listed {
                coded: Coded { text, code },
                firsts: &rows.firsts[..r.listing.count],
            },
            singles: &rows.singles,
            hints: &rows.hints,
        },
        quiet: &rows.quiet,
        loose: &rows.loose,
    };
    let w = write_section(&list, r.listing.section, out, places);
    answered(text, ask_macros(r.listing.fault, r.typed, w))?;
    Ok(w.state.count.unwrap_or(0))
}

// Makes a text with macros ready for loading: how many written-out bytes it has, with a line for each; or the first question answered no. The row
// `code` is for use here alone.
pub fn prepare(
    text: &[u8],
    out: &mut [u8],
    lines: &mut [u16],
    code: &mut [u32],
) -> Result<usize, Rejected>
    requires { Preparable text.now out.old lines.old code.old }
    ensures { Prepares text.now result out.new lines.new code.new }
{
    let mut rows = Rows {
        firsts: [0u16; CodePlaces::MACROS],
        hints: [0u16; HINTS],
        quiet: [0u8; CodePlaces::MACROS],
        loose: [0u8; CodePlaces::MACROS],
        singles: [false; CodePlaces::MACROS],
    };
    let count = expand(text, code, &mut rows, out, lines)?;
    find_lines(text, &mut lines[..count]);
    Ok(count)
}
