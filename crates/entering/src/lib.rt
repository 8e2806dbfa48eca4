// The texts and numbers of a statement come to the tables of a program that is being written: question 11 for them.
#![tactic(auto)]

ghost use Rattle.std.specs.Prelude.{length};
ghost use Rattle.lists.specs.Lists.{bytes_equal};
ghost use Rattle.entering.specs.Entering.{set_texts, Held, AddsCode, Addable, Adds, EnterableText, EnterableValue, EnterableValues, SomeValues, QuotedEntered, TextEntered, NumberEntered, TextsEntered, NumbersEntered};

use arguments::{Quoted, ReadArgument, Value};
use language::Machine;
use statements::Fault;
use table::{Table, is_small};

// Adds a text, unless it is there; whether it is there then.
fn add_text(table: &mut [u32], word: &[u8]) -> bool
    requires { Addable table.old (length word.now) }
    ensures { Adds bytes_equal (λ p. p.texts) set_texts word.now table.old result table.new }
{
    let draft = Table { cells: table };
    if finding::find_text(draft, word).is_some() {
        return true;
    }
    if draft.texts() == Machine::TEXTS {
        return false;
    }
    writing::put_text(table, word);
    true
}

// Adds the number whose value + 8,388,607 is `code`, unless it is there; whether it is there then.
// Beside `add_text` it stands for itself: one function for both would take three closures, and be longer than the two.
fn add_number(table: &mut [u32], code: u32) -> bool
    requires { Held table.old }
    ensures { AddsCode code table.old result table.new }
{
    let draft = Table { cells: table };
    if finding::find_number(draft, code).is_some() {
        return true;
    }
    if draft.numbers() == Machine::NUMBERS {
        return false;
    }
    writing::put_number(table, code);
    true
}

// Adds a text, unless it has one character or none; `Err` is its place, where there is no room for it.
pub fn enter_text_of(text: &[u8], q: Quoted, table: &mut [u32]) -> Result<(), usize>
    requires { EnterableText text.now q table.old }
    ensures { QuotedEntered text.now q table.old result table.new }
{
    let mut word = [0u8; Machine::ITEM];
    let n = spelling::put_text(text, q.at + 1, q.end, &mut word);
    if n < 2 {
        return Ok(());
    }
    if add_text(table, &word[..n]) {
        return Ok(());
    }
    Err(q.at)
}

// Adds the text of a value, if it is one; whether it is there then.
// A bool here and in `enter_number_of`: the loops that ask have the place at fault with the value, and a number comes without one.
fn enter_text_in(text: &[u8], x: ReadArgument, table: &mut [u32]) -> bool
    requires { EnterableValue text.now x table.old }
    ensures { TextEntered text.now x table.old result table.new }
{
    match x {
        ReadArgument::Text(q) => enter_text_of(text, q, table).is_ok(),
        _ => true,
    }
}

// Adds the texts of an instruction's arguments; the place of the first that has no room.
pub fn enter_text_values(text: &[u8], v: [Value; 3], table: &mut [u32]) -> Fault
    requires { EnterableValues text.now v table.old }
    ensures { TextsEntered text.now v table.old result table.new }
{
    for value in v {
        if !enter_text_in(text, value.argument, table) {
            return Some(value.at);
        }
    }
    None
}

// Adds the number of a value, unless it is within 15 in size; whether it is there then.
fn enter_number_of(x: ReadArgument, table: &mut [u32]) -> bool
    requires { Held table.old }
    ensures { NumberEntered x table.old result table.new }
{
    match x {
        ReadArgument::Number(code) => is_small(code) || add_number(table, code),
        _ => true,
    }
}

// Adds the numbers of an instruction's arguments; the place of the first that has no room.
// The loop of `enter_text_values`: shared, it would take a closure on the table, whose contract is longer than the loop.
pub fn enter_number_values(v: [Value; 3], table: &mut [u32]) -> Fault
    requires { SomeValues v table.old }
    ensures { NumbersEntered v table.old result table.new }
{
    for value in v {
        if !enter_number_of(value.argument, table) {
            return Some(value.at);
        }
    }
    None
}

// Of `arguments`, passed on to the crates above.
pub mod from_arguments {
    pub use arguments::{Quoted, ReadArgument, Value};
}

// Of `finding`, passed on to the crates above.
pub mod from_finding {
    pub use finding::{number_ref, text_ref};
}
