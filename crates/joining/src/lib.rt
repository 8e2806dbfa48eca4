// Joining words: ZBIJ, and characters made one word.
#![tactic(auto)]

ghost use Rattle.std.specs.Prelude.{◌≡◌, ◌<◌, length};
ghost use Rattle.language.specs.Limits as limit;
ghost use Rattle.language.specs.Program.Arg.{nothing};
ghost use Rattle.language.specs.Program.Op.{ZBIJ};
ghost use Rattle.layout.specs.Components.{components_bytes, components_in};
ghost use Rattle.machine.specs.Effects.{row};
ghost use Rattle.components.specs.Parts.{spelled, Written};
ghost use Rattle.tests.specs.Prepares.{until_in};
ghost use Rattle.packed.specs.Packed.{table_of};
ghost use Rattle.state.specs.Working.{nth, reading};
ghost use Rattle.table.specs.Denote.{arg_of};
ghost use Rattle.instructions.specs.Questions.{told_by};
ghost use Rattle.instructions.specs.Does.{Tried, DoesFor};
ghost use Rattle.moves.specs.Moves.{all_taken_words, TestBeside};
ghost use Rattle.joining.specs.Joining.{word_if, some, word_room, joined_up, WordMakeable, WordsMakeable, WordsJoinable};

use components::Amount;
use instructions::{Bench, Question, Source};
use language::Machine;
use layout::StatePlaces;
use state::Working;
use table::Table;
use tests::Prepared;

// How many words `k` characters make: one, or none where there are none.
pub fn some(k: usize) -> usize
    ensures { result ≡ some k }
{
    usize::from(k != 0)
}

// Whether a word of `k` characters is within the limits; `removes`: its characters are taken away before.
// A flag, and no amount that is freed: those characters stood in one component at least, so that the word has room wherever they are taken away.
pub fn has_word_room(state: &Working, removes: bool, k: usize) -> bool
    ensures { result ≡ word_room removes k state.now.store }
{
    if Machine::WORD < k {
        return false;
    }
    // Of no characters no word is made, so this is not `Amount::word`. `join_up` has its bytes from what it wrote, so the two share no function.
    let word = Amount {
        parts: some(k),
        bytes: some(k) + k,
        chars: k,
    };
    removes || instructions::has_room(state, word)
}

// Writes the word of these characters, if there are any, at the front of `out`, and tells how many cells it takes.
pub fn make_word(out: &mut [u8], w: &[u8]) -> usize
    requires { WordMakeable (length out.old) (length w.now) }
    ensures { Written out.old (components_bytes (word_if w.now)) out.new result }
{
    if w.is_empty() {
        return 0;
    }
    components::put_word(out, 0, w);
    1 + w.len()
}

// Writes the characters of all words of `src` as one word; `row` holds them meanwhile.
fn join_word(
    row: &mut [u8; StatePlaces::ROW],
    out: &mut [u8; StatePlaces::ROW],
    src: &[u8],
) -> usize
    requires { WordsMakeable src.now }
    ensures { Written out.old (components_bytes (word_if (spelled (components_in src.now)))) out.new result }
{
    let n = components::join(row, src);
    make_word(out, &row[..n])
}

// Puts the words that a test takes of an expression in front of it as one word.
fn join_up(bench: &mut Bench, test: Prepared, source: Source) -> Result<(), Question>
    requires beside { TestBeside bench.old.given test }
    requires source { source.i < limit.expressions }
    ensures { Tried bench.old.state (told_by result) bench.new.state (all_taken_words (until_in test bench.old.given) source.i bench.old.state.store) (joined_up (until_in test bench.old.given) source.removes source.i bench.old.state.store) }
{
    let x = bench.state.expr_bytes(source.i);
    let t = matching::count(x, test.with(&bench.given));
    if !t.words {
        return Err(Question::Kind);
    }
    let chars = t.amount.chars;
    if !has_word_room(&bench.state, source.removes, chars) {
        return Err(Question::Room);
    }
    let n = join_word(&mut bench.given, &mut bench.hold, &x[..t.amount.bytes]);
    bench.state.past_parts(source, t.amount);
    let word = Amount {
        parts: some(chars),
        bytes: n,
        chars,
    };
    moves::deliver(
        &mut bench.state,
        source.front(),
        &bench.hold[..n],
        word,
        t.reached,
    );
    Ok(())
}

// ZBIJ.
pub fn zbij(
    table: Table,
    bench: &mut Bench,
    source: Source,
    arg: table::Argument,
) -> Result<(), Question>
    requires { WordsJoinable table.cells.now source.i arg }
    ensures { DoesFor bench.old.state (told_by result) bench.new.state (λ g ins. row g ins bench.old.state.store (nth (reading source.removes) source.i) (arg_of (table_of table.entry.cells.now) arg) nothing ZBIJ) }
{
    bench.state.stands();
    let test = tests::prepare(table, &bench.state, &mut bench.given, arg)?;
    join_up(bench, test, source)
}

// Of `moves`, passed on to the crates above.
pub mod from_moves {
    pub use components::Amount;
    pub use moves::deliver;
}
