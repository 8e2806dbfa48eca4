// Order: WK and MN of numbers, PP and NS of words.
#![tactic(auto)]

ghost use Rattle.std.specs.Prelude.{◌≡◌, ◌<◌, false};
ghost use Rattle.language.specs.Limits as limit;
ghost use Rattle.language.specs.Program.Arg.{nothing};
ghost use Rattle.machine.specs.Effects.{row};
ghost use Rattle.packed.specs.Packed.{table_of};
ghost use Rattle.state.specs.Working.{Stands, nth, reading};
ghost use Rattle.table.specs.Good.{GoodText};
ghost use Rattle.table.specs.Denote.{arg_of};
ghost use Rattle.instructions.specs.Questions.{told_by};
ghost use Rattle.instructions.specs.Does.{DoesFor};
ghost use Rattle.instructions.specs.Fronts.{front_part};
ghost use Rattle.operands.specs.Operands.{PairReadable, DoesWith};
ghost use Rattle.table.specs.Denote.{text_of};
ghost use Rattle.ordering.specs.Ordering.{TextIs, OtherReadable, Comparable, ReadsWord, ReadsOther, ReadsWords, number_op, word_op, words_by};

use components::Kind;
use instructions::{Bench, Question};
use layout::StatePlaces;
use operands::{Offered, Pair};
use state::Working;
use table::Table;

// Which of two components is asked to come first: the one of the expression, or the other.
#[derive(Clone, Copy, Debug, PartialEq, Eq)]
pub enum Order {
    Before,
    After,
}

// Puts the characters of the first component of expression `i` in front of `out`, none of a number or an address: how many they are.
fn first_word(state: &Working, out: &mut [u8; StatePlaces::ROW], i: usize) -> Option<Offered>
    requires { i < limit.expressions }
    ensures reads { ReadsWord (front_part state.now.store i) out.new result }
    ensures stands { Stands state.now }
{
    let x = state.expr_bytes(i);
    if x.is_empty() {
        return None;
    }
    let w = components::chars_of(x);
    cells::put(out, 0, w);
    Some(Offered {
        kind: components::kind_of(x),
        number: w.len(),
    })
}

// A text in front of `given`.
fn text_word(
    table: Table,
    given: &mut [u8; StatePlaces::ROW],
    text: table::TextRef,
) -> Option<Offered>
    requires { GoodText table.cells.now text }
    ensures { TextIs (text_of (table_of table.entry.cells.now) text) given.new result }
{
    let number = table.put_text(text, given);
    Some(Offered {
        kind: Kind::Word,
        number,
    })
}

// Puts the characters of a second argument, B or a text, in front of `given`.
fn other_word(
    table: Table,
    state: &Working,
    given: &mut [u8; StatePlaces::ROW],
    arg: table::Argument,
) -> Option<Offered>
    requires { OtherReadable table.cells.now arg }
    ensures { ReadsOther table.entry.cells.now state.now.store arg given.new result }
{
    match arg {
        table::Argument::Indexed(_, n) => first_word(state, given, n - 1),
        table::Argument::Text(text) => text_word(table, given, text),
        table::Argument::Number(_) => Some(Offered {
            kind: Kind::Number,
            number: 0,
        }),
        table::Argument::Class(_)
        | table::Argument::Nothing
        | table::Argument::Label(_)
        | table::Argument::Switch(_) => None,
    }
}

// WK or MN of expression `i`: whether its first number comes after the other one, or before it.
pub fn compare_numbers(
    state: &mut Working,
    i: usize,
    arg: table::Argument,
    order: Order,
) -> Result<(), Question>
    requires { PairReadable i arg }
    ensures { DoesWith state.old (told_by result) state.new (λ c g ins. row g ins state.old.store (nth (reading false) i) (arg_of c arg) nothing (number_op order)) }
{
    let p = operands::two_operands(state, i, arg, operands::Kinds::Numbers)?;
    let holds = match order {
        Order::Before => p.left < p.right,
        Order::After => p.right < p.left,
    };
    state.minus_unless(holds);
    Ok(())
}

// The first word of expression `i` in front of `hold` and the other one in front of `given`: how long they are.
fn words_of(
    table: Table,
    state: &Working,
    hold: &mut [u8; StatePlaces::ROW],
    given: &mut [u8; StatePlaces::ROW],
    i: usize,
    arg: table::Argument,
) -> Result<Pair, Question>
    requires { Comparable table.cells.now i arg }
    ensures reads { ReadsWords table.entry.cells.now state.now.store i arg hold.new given.new result }
    ensures stands { Stands state.now }
{
    let x = first_word(state, hold, i);
    let y = other_word(table, state, given, arg);
    operands::ask_kinds(operands::Kinds::Words, x, y)
}

// Whether the words `v` and `w` stand so.
fn are_in_order(order: Order, v: &[u8], w: &[u8]) -> bool
    ensures { result ≡ words_by order v.now w.now }
{
    match order {
        Order::Before => characters::precedes(v, w),
        Order::After => characters::precedes(w, v),
    }
}

// PP or NS of expression `i`: whether its first word comes before the other one, or after it.
pub fn compare_words(
    table: Table,
    bench: &mut Bench,
    i: usize,
    arg: table::Argument,
    order: Order,
) -> Result<(), Question>
    requires { Comparable table.cells.now i arg }
    ensures { DoesFor bench.old.state (told_by result) bench.new.state (λ g ins. row g ins bench.old.state.store (nth (reading false) i) (arg_of (table_of table.entry.cells.now) arg) nothing (word_op order)) }
{
    let p = words_of(
        table,
        &bench.state,
        &mut bench.hold,
        &mut bench.given,
        i,
        arg,
    )?;
    let holds = are_in_order(order, &bench.hold[..p.left], &bench.given[..p.right]);
    bench.state.minus_unless(holds);
    Ok(())
}
