// Question 62: whether a lent table is well formed. Cells beyond the 8,192 are neither read nor needed.
#![tactic(auto)]

ghost use Rattle.std.specs.Prelude.{◌≡◌, ◌+◌, ◌-◌, ◌<◌};
ghost use Rattle.layout.specs.Table.{good_table};
ghost use Rattle.packed.specs.Packed.{table_of};
ghost use Rattle.check_parts.specs.Parts.{passes, label_fits, entry_fits};
ghost use Rattle.check_table.specs.Checks.{Counted, counts_fit, rest_zero, text_stays, number_stays, switch_fits, switches_fit, parts_fit};

use language::Machine;
use layout::TablePlaces;
use table::Table;

// Whether there are instructions, and nothing is beyond the limits.
#[tactic(auto, unfolding(crate::specs::Checks::counts_fit))]
fn counts_fit(table: Table) -> bool
    ensures { result ≡ counts_fit (table_of table.entry.cells.now) }
{
    let code = table.instructions();
    (0 < code)
        & (code <= Machine::INSTRUCTIONS)
        & (table.labels() <= Machine::LABELS)
        & (table.switches() <= Machine::SWITCHES)
        & (table.entries() <= Machine::ENTRIES)
        & (table.texts() <= Machine::TEXTS)
        & (table.numbers() <= Machine::NUMBERS)
        & (check_parts::read(table, TablePlaces::FIRST_SPARE) == 0)
        & (check_parts::read(table, TablePlaces::LAST_SPARE) == 0)
}

// "Unused cells zero". One call for each part: a helper of the count, the start, the size and the end takes as many lines.
#[tactic(auto, unfolding(crate::specs::Checks::rest_zero))]
fn rest_zero(table: Table) -> bool
    requires { Counted table.cells.now }
    ensures { result ≡ rest_zero (table_of table.entry.cells.now) }
{
    check_parts::zeros(
        table,
        TablePlaces::FIRST_INSTRUCTION + TablePlaces::INSTRUCTION_SIZE * table.instructions(),
        TablePlaces::FIRST_LABEL,
    ) & check_parts::zeros(
        table,
        TablePlaces::FIRST_LABEL + TablePlaces::LABEL_SIZE * table.labels(),
        TablePlaces::FIRST_TEXT,
    ) & check_parts::zeros(
        table,
        TablePlaces::FIRST_TEXT + TablePlaces::TEXT_SIZE * table.texts(),
        TablePlaces::FIRST_SWITCH,
    ) & check_parts::zeros(
        table,
        TablePlaces::FIRST_SWITCH + table.switches(),
        TablePlaces::FIRST_ENTRY,
    ) & check_parts::zeros(
        table,
        TablePlaces::FIRST_ENTRY + table.entries(),
        TablePlaces::FIRST_NUMBER,
    ) & check_parts::zeros(
        table,
        TablePlaces::FIRST_NUMBER + table.numbers(),
        Machine::TABLE,
    )
}

// Whether text `i` is well formed and differs from those behind it, up to `n`.
// Apart from `number_stays`: each is one line of `all`, with a test of its own.
fn text_stays(table: Table, n: usize, i: usize) -> bool
    requires { i + n < 512 }
    ensures { result ≡ text_stays (table_of table.entry.cells.now) n i }
{
    check_parts::text_fits(table, i) & (i + 1..n).all(|j| !check_parts::texts_same(table, i, j))
}

fn texts_fit(table: Table, n: usize) -> bool
    requires { n < 129 }
    ensures { result ≡ passes (text_stays (table_of table.entry.cells.now) n) n 0 }
{
    (0..n).all(|i| text_stays(table, n, i))
}

// Whether number `i` is well formed and differs from those behind it, up to `n`.
fn number_stays(table: Table, n: usize, i: usize) -> bool
    requires { i + n < 512 }
    ensures { result ≡ number_stays (table_of table.entry.cells.now) n i }
{
    let x = check_parts::read(table, TablePlaces::FIRST_NUMBER + i);
    check_parts::number_fits(table, i)
        & (i + 1..n).all(|j| x != check_parts::read(table, TablePlaces::FIRST_NUMBER + j))
}

fn numbers_fit(table: Table, n: usize) -> bool
    requires { n < 129 }
    ensures { result ≡ passes (number_stays (table_of table.entry.cells.now) n) n 0 }
{
    (0..n).all(|i| number_stays(table, n, i))
}

fn labels_fit(table: Table, n: usize) -> bool
    requires { n < 129 }
    ensures { result ≡ passes (label_fits (table_of table.entry.cells.now)) n 0 }
{
    (0..n).all(|k| check_parts::label_fits(table, k))
}

// Whether the entries of a switch, from `from` up to `to`, are well formed. `named` is a Bool, as the specification's `goes_by_name`.
fn entries_fit(table: Table, named: bool, from: usize, to: usize) -> bool
    requires { to < 65536 }
    ensures { result ≡ passes (entry_fits (table_of table.entry.cells.now) named) (to - from) from }
{
    (from..to).all(|k| check_parts::entry_fits(table, named, k))
}

// Whether switch `k` has entries, which begin at entry `from`.
#[tactic(auto, unfolding(crate::specs::Checks::switch_fits))]
fn switch_fits(table: Table, k: usize, from: usize) -> bool
    requires { (k < 32) × (from < 65000) }
    ensures { result ≡ switch_fits (table_of table.entry.cells.now) k from }
{
    let n = table.switch_count(k);
    (table.switch_first(k) == from)
        & (0 < n)
        & entries_fit(table, table.switch_by_name(k), from, from + n)
}

// Whether the `n` switches are well formed, and their entries follow one another up to the last.
fn switches_fit(table: Table, n: usize) -> bool
    requires { n < 33 }
    ensures { result ≡ switches_fit (table_of table.entry.cells.now) n 0 0 }
{
    let mut from = 0;
    for k in 0..n {
        if !switch_fits(table, k, from) {
            return false;
        }
        from += table.switch_count(k);
    }
    from == table.entries()
}

#[tactic(auto, using(crate::proofs::Turns::parts_by))]
fn parts_fit(table: Table) -> bool
    requires { Counted table.cells.now }
    ensures { result ≡ parts_fit (table_of table.entry.cells.now) }
{
    let code = table.instructions();
    rest_zero(table)
        & texts_fit(table, table.texts())
        & numbers_fit(table, table.numbers())
        & labels_fit(table, table.labels())
        & switches_fit(table, table.switches())
        & check_code::instructions_fit(table, code)
        & check_code::last_ends(table, code)
}

// "Table well formed (every field in its range, unused cells zero, all targets in the table, last instruction as above)? 62."
pub fn is_table(cells: &[u32]) -> bool
    ensures { result ≡ good_table cells.now }
{
    if cells.len() < Machine::TABLE {
        return false;
    }
    let table = Table { cells };
    if !counts_fit(table) {
        return false;
    }
    parts_fit(table)
}
