// A short part of a refused text that load refuses with the same number.
#![tactic(auto)]

ghost use Rattle.std.specs.Prelude.{◌≡◌, length};
ghost use Rattle.shorten_calls.specs.Shortening.{part};
ghost use Rattle.statements.specs.Questions.{question_number};
ghost use Rattle.shortening.specs.Trying.{Ending, LineStart, Exchangeable, exchanged, refused_with, Cuttable, Tried, Tryable, Rounded, Finished, Givable, Given, RefusedText, Shortens};

use calls::Question as Asked;
use language::Machine;
use macro_loading::from_loading::Loaded;
use statements::Question;

// What load answers of the part, and how many bytes it has.
#[derive(Clone, Copy, Debug, PartialEq, Eq)]
pub struct Shortened {
    pub loaded: Loaded,
    pub count: u32,
}

// Whether load refuses by this question.
fn is_refused_by(loaded: Loaded, question: Question) -> bool
    ensures { result ≡ refused_with (question_number question) loaded }
{
    matches!(loaded, Err(r) if r.question == question)
}

// The place where the line begins that ends at `end`.
fn line_start(text: &[u8], end: usize) -> usize
    requires { Ending text.now end }
    ensures { LineStart text.now end result }
{
    match text[..end - 1].iter().rposition(|&b| b == b'\n') {
        Some(last) => last + 1,
        None => 0,
    }
}

// Puts the bytes from `from` to `middle` behind those from `middle` to `to`.
fn exchange(row: &mut [u8], from: usize, middle: usize, to: usize)
    requires { Exchangeable row.old from middle to }
    ensures { row.new ≡ exchanged row.old from middle to }
{
    row[from..to].rotate_left(middle - from);
}

// Drops the bytes from `from` to `to` if the question stays; returns how many bytes are left. For the trial they are put behind the others.
fn try_without(
    part: &mut [u8],
    from: usize,
    to: usize,
    question: Question,
    table: &mut [u32],
) -> usize
    requires { Cuttable part.old from to (question_number question) (length table.old) }
    ensures { Tried part.old from to (question_number question) part.new result }
{
    let n = part.len();
    let size = from + (n - to);
    exchange(part, from, to, n);
    let loaded = macro_loading::load(&part[..size], table);
    if is_refused_by(loaded, question) {
        return size;
    }
    exchange(part, from, size, n);
    n
}

// One round: "from the last to the first, each dropped if the number stays".
// No range: each turn finds where its line begins, and in `rounds` each round tells whether another follows.
fn round(part: &mut [u8], question: Question, table: &mut [u32]) -> usize
    requires { Tryable (question_number question) (length table.old) }
    ensures { Rounded part.old (question_number question) part.new result }
{
    let mut size = part.len();
    let mut left = size;
    while 0 < left {
        let from = line_start(part, left);
        size = try_without(&mut part[..size], from, left, question, table);
        left = from;
    }
    size
}

// "until a round drops none"
fn rounds(part: &mut [u8], question: Question, table: &mut [u32]) -> usize
    requires { Tryable (question_number question) (length table.old) }
    ensures { Finished part.old (question_number question) part.new result }
{
    let mut size = part.len();
    loop {
        let left = round(&mut part[..size], question, table);
        if left == size {
            return size;
        }
        size = left;
    }
}

// "A lent table is left as loading the part leaves it .. The part goes to a lent buffer, whose rest stays".
fn give(part: &[u8], table: &mut [u32], out: &mut [u8]) -> Shortened
    requires { Givable part.now (length out.old) }
    ensures { Given part.now table.old out.old result table.new out.new }
{
    let loaded = macro_loading::load(part, table);
    out[..part.len()].copy_from_slice(part);
    Shortened {
        loaded,
        count: part.len() as u32,
    }
}

// The part of a refused text. The trials use the lent table.
// `cells::put` fills the row: `copy_from_slice` on a row of this function leaves goals over all its locals, which did not close.
fn shorten_refused(text: &[u8], question: Question, table: &mut [u32], out: &mut [u8]) -> Shortened
    requires { RefusedText text.now (question_number question) (length table.old) (length out.old) }
    ensures { Given (part (length table.old) text.now) table.old out.old result table.new out.new }
{
    let mut part = [0u8; Machine::TEXT];
    cells::put(&mut part, 0, text);
    let n = text.len();
    let size = rounds(&mut part[..n], question, &mut table[..Machine::TABLE]);
    give(&part[..size], table, out)
}

// "From a refused text, give a part made of some of its lines .. A text that loads is given back, with 80."
pub fn shorten(text: &[u8], table: &mut [u32], out: &mut [u8]) -> Result<Shortened, Asked>
    ensures { Shortens text.now table.old out.old result table.new out.new }
{
    // "one shorter than the text also brings 40"
    if out.len() < text.len() {
        return Err(Asked::Size);
    }
    let loaded = macro_loading::load(text, table);
    if is_refused_by(loaded, Question::Size) {
        return Err(Asked::Size);
    }
    match loaded {
        Ok(()) => {
            out[..text.len()].copy_from_slice(text);
            Ok(Shortened {
                loaded,
                count: text.len() as u32,
            })
        }
        Err(r) => Ok(shorten_refused(text, r.question, table, out)),
    }
}

// Of `macro_loading`, passed on to the crates above.
pub mod from_macro_loading {
    pub use macro_loading::load;
}
