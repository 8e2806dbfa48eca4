// The instructions of numbers and words, from the arguments of instruction `i`.
#![tactic(auto)]

ghost use Rattle.language.specs.Operators.{op_by};
ghost use Rattle.instructions.specs.Questions.{told_by};
ghost use Rattle.performing.specs.Operating.{PerformsFor};
ghost use Rattle.perform_values.specs.Valuing.{Valuing};

use arithmetic::Computed;
use instructions::{Bench, Question};
use language::Operator;
use ordering::Order;
use table::Table;

// The instruction of an operator.
pub fn perform_value(
    table: Table,
    bench: &mut Bench,
    op: Operator,
    i: usize,
) -> Result<(), Question>
    requires { Valuing table.cells.now bench.old.state (op_by op) i }
    ensures { PerformsFor table.entry.cells.now bench.old.state (told_by result) bench.new.state }
{
    let x = table.first(i);
    let index = decoding::index_of(x);
    match op {
        Operator::WK => ordering::compare_numbers(
            &mut bench.state,
            index,
            table.second(i),
            Order::After,
        ),
        Operator::MN => ordering::compare_numbers(
            &mut bench.state,
            index,
            table.second(i),
            Order::Before,
        ),
        Operator::PP => ordering::compare_words(
            table,
            bench,
            index,
            table.second(i),
            Order::Before,
        ),
        Operator::NS => ordering::compare_words(table, bench, index, table.second(i), Order::After),
        Operator::DODAJ => arithmetic::compute(bench, index, table.second(i), Computed::Sum),
        Operator::ODEJMIJ => arithmetic::compute(
            bench,
            index,
            table.second(i),
            Computed::Difference,
        ),
        Operator::MNOZ => arithmetic::compute(bench, index, table.second(i), Computed::Product),
        Operator::DZIEL => arithmetic::dziel(bench, index, table.second(i)),
        Operator::SLOWO => converting::slowo(bench, decoding::source_of(x)),
        Operator::LICZBA => converting::liczba(bench, decoding::source_of(x)),
        _ => unreachable!(),
    }
}
