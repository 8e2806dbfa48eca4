// The instructions of a program table, for question 62: operator and line, and arguments in range and of the forms that the instruction lists.
#![tactic(auto)]

ghost use Rattle.std.specs.Prelude.{◌≡◌, cond, ◌+◌, ◌*◌, ◌%◌, ◌^◌, ◌<◌, eqb, ltb};
ghost use Rattle.forms.specs.Forms.{ends};
ghost use Rattle.layout.specs.Cells.{cell};
ghost use Rattle.packed.specs.Packed.{table_of};
ghost use Rattle.check_parts.specs.Parts.{passes, letter_fits, takes, list_takes, lists_take, head_fits, arg_fits, form_bit, instr_fits};
ghost use Rattle.layout.specs.Places.{first_switch};

use forms::Forms;
use language::{Machine, Operator};
use layout::{ArgumentKind, Pair, SwitchCell, TablePlaces};
use table::{Letter, Table};

// Whether there is such an indexed letter.
#[tactic(auto, using(crate::proofs::Indices::letter_in, crate::proofs::Indices::letter_none))]
fn letter_fits(v: usize) -> bool
    ensures { result ≡ letter_fits v }
{
    let pair = Pair::of(v);
    Letter::try_from(pair.second).is_ok_and(|letter| (0 < pair.first)
        & (pair.first <= letter.reach()))
}

// Whether the argument in a cell `x` is in range.
#[tactic(auto, using(crate::proofs::ByKind::arg_by), unfolding(check_parts::specs::Parts::arg_fits))]
fn arg_fits(table: Table, x: usize) -> bool
    ensures { result ≡ arg_fits (table_of table.entry.cells.now) x }
{
    let v = ArgumentKind::value_in(x);
    match ArgumentKind::in_cell(x) {
        Ok(ArgumentKind::Letter) => letter_fits(v),
        Ok(ArgumentKind::Label) => v < table.labels(),
        Ok(ArgumentKind::Switch) => v < table.switches(),
        Ok(ArgumentKind::Class) => (0 < v) & (v < 16),
        Ok(ArgumentKind::Text) => check_parts::ref_fits(table, v),
        Ok(ArgumentKind::Number) => v < TablePlaces::SMALL_NUMBERS + table.numbers(),
        Ok(ArgumentKind::Nothing) | Err(_) => x == 0,
    }
}

// The set of the letter at a place, empty where there is none.
#[tactic(auto, using(crate::proofs::Indices::form_in, crate::proofs::Indices::form_none))]
fn letter_form(place: usize) -> Forms
    ensures { result.bits ≡ cond (ltb place 12) (2 ^ place) 0 }
{
    Letter::try_from(place).map_or(Forms::EMPTY, Forms::letter)
}

fn switch_form(table: Table, v: usize) -> Forms
    requires { v < 536870912 }
    ensures { result.bits ≡ cond (eqb (cell (table_of table.entry.cells.now) (first_switch + v) % 2) 1) 65536 131072 }
{
    if SwitchCell::of(check_parts::read(table, TablePlaces::FIRST_SWITCH + v)).named {
        return Forms::NAZWA;
    }
    Forms::INDEKS
}

// The set of the form of the argument in a cell `x`.
#[tactic(auto, using(crate::proofs::ByKind::form_by), unfolding(check_parts::specs::Parts::form_bit))]
fn form_of(table: Table, x: usize) -> Forms
    requires { x < 4294967296 }
    ensures { result.bits ≡ form_bit (table_of table.entry.cells.now) x }
{
    let v = ArgumentKind::value_in(x);
    match ArgumentKind::in_cell(x) {
        Ok(ArgumentKind::Letter) => letter_form(Pair::of(v).second),
        Ok(ArgumentKind::Label) => Forms::LABEL,
        Ok(ArgumentKind::Switch) => switch_form(table, v),
        Ok(ArgumentKind::Class) => Forms::CLASS,
        Ok(ArgumentKind::Text) => Forms::TEXT,
        Ok(ArgumentKind::Number) => Forms::NUMBER,
        Ok(ArgumentKind::Nothing) | Err(_) => Forms::NOTHING,
    }
}

// Whether a set of forms has one that an instruction's list has at a place. The operator is a number here and in `Given`: a cell may have that of none.
#[tactic(auto, unfolding(check_parts::specs::Parts::takes))]
fn takes(set: Forms, op: u8, list: u8, place: u8) -> bool
    ensures { result ≡ takes set.bits op list place }
{
    set.meets(forms::forms_at(op, list, place))
}

// An instruction as its list is asked about it: its operator, and the sets of the forms of its arguments.
#[derive(Clone, Copy, Debug, PartialEq, Eq)]
struct Given {
    op: u8,
    first: Forms,
    second: Forms,
    third: Forms,
}

impl Given {
    // One line for each argument: a loop over three would be longer.
    fn is_taken(self, list: u8) -> bool
        ensures { result ≡ list_takes self.op self.first.bits self.second.bits self.third.bits list }
    {
        takes(self.first, self.op, list, 0)
            & takes(self.second, self.op, list, 1)
            & takes(self.third, self.op, list, 2)
    }

    // Whether one of the two lists of the operator takes the arguments.
    #[tactic(auto, unfolding(check_parts::specs::Parts::lists_take))]
    fn is_listed(self) -> bool
        ensures { result ≡ lists_take self.op self.first.bits self.second.bits self.third.bits }
    {
        self.is_taken(0) | self.is_taken(1)
    }
}

// Operator and line.
#[tactic(auto, unfolding(check_parts::specs::Parts::head_fits))]
fn head_fits(x: usize) -> bool
    ensures { result ≡ head_fits x }
{
    let head = Pair::of(x);
    Operator::try_from(head.first as u8).is_ok()
        & (0 < head.second)
        & (head.second <= Machine::TEXT)
}

#[tactic(auto, unfolding(check_parts::specs::Parts::instr_fits))]
fn instr_fits(table: Table, i: usize) -> bool
    requires { i < 65536 }
    ensures { result ≡ instr_fits (table_of table.entry.cells.now) i }
{
    let x = check_parts::read(
        table,
        TablePlaces::FIRST_INSTRUCTION + TablePlaces::INSTRUCTION_SIZE * i,
    );
    let a = check_parts::read(
        table,
        TablePlaces::FIRST_ARGUMENT + TablePlaces::INSTRUCTION_SIZE * i,
    );
    let b = check_parts::read(
        table,
        TablePlaces::SECOND_ARGUMENT + TablePlaces::INSTRUCTION_SIZE * i,
    );
    let d = check_parts::read(
        table,
        TablePlaces::THIRD_ARGUMENT + TablePlaces::INSTRUCTION_SIZE * i,
    );
    let given = Given {
        op: Pair::of(x).first as u8,
        first: form_of(table, a),
        second: form_of(table, b),
        third: form_of(table, d),
    };
    head_fits(x) & arg_fits(table, a) & arg_fits(table, b) & arg_fits(table, d) & given.is_listed()
}

// Whether the first `n` instructions are well formed.
pub fn instructions_fit(table: Table, n: usize) -> bool
    requires { n < 65536 }
    ensures { result ≡ passes (instr_fits (table_of table.entry.cells.now)) n 0 }
{
    (0..n).all(|i| instr_fits(table, i))
}

// Whether the last of `n` instructions is STOP, SKOCZ or WROC.
pub fn last_ends(table: Table, n: usize) -> bool
    requires { n < 65536 }
    ensures { result ≡ ends (cell (table_of table.entry.cells.now) (4 + 4 * n) % 64) }
{
    let x = check_parts::read(
        table,
        TablePlaces::FIRST_INSTRUCTION - TablePlaces::INSTRUCTION_SIZE
            + TablePlaces::INSTRUCTION_SIZE * n,
    );
    forms::is_end(Pair::of(x).first as u8)
}
