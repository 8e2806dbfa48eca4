// Reading a program table, "a table of 8,192 numbers of 32 bits": with `writing`, `finding` and `check_parts` the only code that reads its cells.
// docs/LAYOUT.md has their places.
#![tactic(auto)]

ghost use Rattle.std.specs.Prelude.{◌≡◌, ◌+◌, ◌*◌, ◌%◌, ◌≤◌, ◌<◌, length, position, take, drop};
ghost use Rattle.packed.specs.Below.Lists.{bytes_equal};
ghost use Rattle.packed.specs.Below.Program.{meets};
ghost use Rattle.packed.specs.Below.Cells.{Number};
ghost use Rattle.packed.specs.Below.Letters.{indices, use_of};
ghost use Rattle.packed.specs.Below.LayoutCells.{cell, uncode};
ghost use Rattle.packed.specs.Below.Table.{number_by, instr_in, label_in, switch_in, entry_in, program_of};
ghost use Rattle.packed.specs.Packed.{table_of, Copied};
ghost use Rattle.table.specs.Denote.{letter_of, letter_at, ref_number, is_small, text_of};
ghost use Rattle.table.specs.Reads.{Placed, Into, RefersTo, IsArgument, Operated, IsInstruction, switch_first, switch_size, entry_ref, Keyed, Entries, entries_from};
ghost use Rattle.packed.specs.Below.Limits as limit;
ghost use Rattle.packed.specs.Below.LayoutPlaces.{instruction_count, label_count, switch_count, entry_count, text_count, number_count, first_instruction};

use language::Operator;
use layout::{ArgumentKind, EntryCell, Pair, SwitchCell, TablePlaces};
use packed::from_cells;
use packed::from_language::Machine;

#[derive(Clone, Copy, Debug, PartialEq, Eq)]
pub enum Letter {
    A,
    B,
    C,
    D,
    E,
    I,
    N,
    P,
    Q,
    T,
    Y,
    Z,
}

// A text that an argument or an entry refers to: that of no character, one character, or a place in the table of texts.
#[derive(Clone, Copy, Debug, PartialEq, Eq)]
pub enum TextRef {
    Empty,
    Byte(u8),
    Place(usize),
}

// "An argument is an indexed letter, a label, a class, a text, a number or nothing." A label and a switch are their places, a class is its
// mask (L 1, D 2, B 4, R 8), and a number its value + 8,388,607.
#[derive(Clone, Copy, Debug, PartialEq, Eq)]
pub enum Argument {
    Nothing,
    Indexed(Letter, usize),
    Label(usize),
    Switch(usize),
    Class(u8),
    Text(TextRef),
    Number(u32),
}

// What an instruction does, and its three arguments.
#[derive(Clone, Copy, Debug, PartialEq, Eq)]
pub struct Instruction {
    pub op: Operator,
    pub x: Argument,
    pub y: Argument,
    pub z: Argument,
}

// A table that is lent: its first 8,192 cells are read, others never.
#[derive(Clone, Copy, Debug, PartialEq, Eq)]
pub struct Table<'a> {
    pub cells: &'a [u32],
    ghost long: { limit.table ≤ length cells.now },
}

// A number that is the place of no letter.
#[derive(Clone, Copy, Debug, PartialEq, Eq)]
pub struct NoLetter;

// The letter at a place among the twelve.
impl TryFrom<usize> for Letter {
    ghost use Rattle.table.specs.LetterPlaces.{AtPlace};

    type Error = NoLetter;

    ghost try_from_gives = { AtPlace };

    fn try_from(n: usize) -> Result<Letter, NoLetter> {
        Ok(match n {
            0 => Letter::A,
            1 => Letter::B,
            2 => Letter::C,
            3 => Letter::D,
            4 => Letter::E,
            5 => Letter::I,
            6 => Letter::N,
            7 => Letter::P,
            8 => Letter::Q,
            9 => Letter::T,
            10 => Letter::Y,
            11 => Letter::Z,
            _ => return Err(NoLetter),
        })
    }
}

impl Letter {
    // How far the indices of a letter go.
    pub fn reach(self) -> usize
        ensures { (result ≡ indices (use_of (letter_of self)).var) × (result ≤ 32) }
    {
        match self {
            Letter::I => Machine::INPUTS,
            Letter::Q => Machine::OUTPUTS,
            Letter::C | Letter::D | Letter::P => Machine::FILES,
            Letter::A | Letter::B | Letter::E | Letter::N | Letter::T | Letter::Y | Letter::Z =>
                Machine::EXPRESSIONS,
        }
    }
}

// The letter at a place, and A past the twelve.
fn letter_by(n: usize) -> Letter
    ensures { letter_of result ≡ letter_at n }
{
    Letter::try_from(n).unwrap_or(Letter::A)
}

// Whether the number whose value + 8,388,607 is `code` is within ±15. Such a one stands in an argument's cell itself, any other in the table of numbers.
pub fn is_small(code: u32) -> bool
    ensures { result ≡ is_small code }
{
    (Machine::SIZE - Machine::SMALL..=Machine::SIZE + Machine::SMALL).contains(&(code as usize))
}

// The text that a number in a cell refers to: 0 is none, a byte its character, and what is more a place.
impl From<usize> for TextRef {
    ghost use Rattle.table.specs.LetterPlaces.{IsReferred};

    ghost from_gives = { IsReferred };

    fn from(v: usize) -> TextRef {
        if v == 0 {
            return TextRef::Empty;
        }
        if v < TablePlaces::SHORT_TEXTS {
            return TextRef::Byte(v as u8);
        }
        TextRef::Place(v - TablePlaces::SHORT_TEXTS)
    }
}

impl TextRef {
    // The number that refers to the text in the cell of an argument or an entry.
    pub fn number(self) -> usize
        requires { ref_number self ≤ 384 }
        ensures { result ≡ ref_number self }
    {
        match self {
            TextRef::Empty => 0,
            TextRef::Byte(b) => usize::from(b),
            TextRef::Place(k) => TablePlaces::SHORT_TEXTS + k,
        }
    }
}

impl<'a> Table<'a> {
    // Cell `k`, and 0 past the table.
    pub fn cell_at(self, k: usize) -> u32
        ensures { result ≡ cell (table_of self.entry.cells.now) k }
    {
        self.cells[..Machine::TABLE].get(k).copied().unwrap_or(0)
    }

    // The 15 cells from cell `at` on, which have the characters of a name or a text.
    fn row(self, at: usize) -> &'a [u32; 15]
        requires { at + 15 ≤ limit.table }
        ensures { result.now ≡ take 15 (drop at (table_of self.entry.cells.now)) }
    {
        self.cells[at..at + 15].first_chunk::<15>().unwrap()
    }

    // The value + 8,388,607 of a number that an argument refers to.
    fn number_by(self, v: usize) -> u32
        requires { v < 536870912 }
        ensures { uncode result ≡ number_by (table_of self.entry.cells.now) v }
    {
        if v < TablePlaces::SMALL_NUMBERS {
            return (v + (Machine::SIZE - Machine::SMALL)) as u32;
        }
        self.cell_at(TablePlaces::FIRST_NUMBER + (v - TablePlaces::SMALL_NUMBERS))
    }

    // The argument in cell `k`.
    fn argument_at(self, k: usize) -> Argument
        requires { k < limit.table }
        ensures { IsArgument (table_of self.entry.cells.now) k result }
    {
        let x = self.read(k);
        let v = ArgumentKind::value_in(x);
        match ArgumentKind::in_cell(x) {
            Ok(ArgumentKind::Letter) => {
                let pair = Pair::of(v);
                Argument::Indexed(letter_by(pair.second), pair.first)
            }
            Ok(ArgumentKind::Label) => Argument::Label(v),
            Ok(ArgumentKind::Switch) => Argument::Switch(v),
            Ok(ArgumentKind::Class) => Argument::Class((v % 16) as u8),
            Ok(ArgumentKind::Text) => Argument::Text(TextRef::from(v)),
            Ok(ArgumentKind::Number) => Argument::Number(self.number_by(v)),
            Ok(ArgumentKind::Nothing) | Err(_) => Argument::Nothing,
        }
    }

    // A number in cell `k`.
    fn read(self, k: usize) -> usize
        requires { k < limit.table }
        ensures { Number (cell (table_of self.entry.cells.now) k) 4294967296 result }
    {
        from_cells::read(self.cells, k)
    }

    // How many instructions, labels, switches, entries, texts and numbers the program has.
    // One reader each, of one line: a number for which count is wanted would be no plainer.
    pub fn instructions(self) -> usize
        ensures { Number (cell (table_of self.entry.cells.now) instruction_count) 4294967296 result }
    {
        self.read(TablePlaces::INSTRUCTION_COUNT)
    }

    pub fn labels(self) -> usize
        ensures { Number (cell (table_of self.entry.cells.now) label_count) 4294967296 result }
    {
        self.read(TablePlaces::LABEL_COUNT)
    }

    pub fn switches(self) -> usize
        ensures { Number (cell (table_of self.entry.cells.now) switch_count) 4294967296 result }
    {
        self.read(TablePlaces::SWITCH_COUNT)
    }

    pub fn entries(self) -> usize
        ensures { Number (cell (table_of self.entry.cells.now) entry_count) 4294967296 result }
    {
        self.read(TablePlaces::ENTRY_COUNT)
    }

    pub fn texts(self) -> usize
        ensures { Number (cell (table_of self.entry.cells.now) text_count) 4294967296 result }
    {
        self.read(TablePlaces::TEXT_COUNT)
    }

    pub fn numbers(self) -> usize
        ensures { Number (cell (table_of self.entry.cells.now) number_count) 4294967296 result }
    {
        self.read(TablePlaces::NUMBER_COUNT)
    }

    // The number of instruction `i`'s operator.
    pub fn operator(self, i: usize) -> u8
        requires { i < 512 }
        ensures { Number (cell (table_of self.entry.cells.now) (first_instruction + 4 * i) % 64) 64 result }
    {
        Pair::of(self.read(
            TablePlaces::FIRST_INSTRUCTION + TablePlaces::INSTRUCTION_SIZE * i,
        )).first as u8
    }

    // The line of instruction `i`.
    pub fn line(self, i: usize) -> usize
        requires { i < 512 }
        ensures { Number (instr_in (table_of self.entry.cells.now) i).line 67108864 result }
    {
        Pair::of(self.read(
            TablePlaces::FIRST_INSTRUCTION + TablePlaces::INSTRUCTION_SIZE * i,
        )).second
    }

    // The arguments of instruction `i`.
    // One reader each, of one line: a number for which argument is wanted would be no plainer.
    pub fn first(self, i: usize) -> Argument
        requires { i < 512 }
        ensures { IsArgument (table_of self.entry.cells.now) (1 + (first_instruction + 4 * i)) result }
    {
        self.argument_at(TablePlaces::FIRST_ARGUMENT + TablePlaces::INSTRUCTION_SIZE * i)
    }

    pub fn second(self, i: usize) -> Argument
        requires { i < 512 }
        ensures { IsArgument (table_of self.entry.cells.now) (2 + (first_instruction + 4 * i)) result }
    {
        self.argument_at(TablePlaces::SECOND_ARGUMENT + TablePlaces::INSTRUCTION_SIZE * i)
    }

    pub fn third(self, i: usize) -> Argument
        requires { i < 512 }
        ensures { IsArgument (table_of self.entry.cells.now) (3 + (first_instruction + 4 * i)) result }
    {
        self.argument_at(TablePlaces::THIRD_ARGUMENT + TablePlaces::INSTRUCTION_SIZE * i)
    }

    // The cell of argument `j` of instruction `i`.
    pub fn argument_cell(self, i: usize, j: usize) -> usize
        requires { (i < 512) × (j < 3) }
        ensures { Number (cell (table_of self.entry.cells.now) (1 + j + (first_instruction + 4 * i))) 4294967296 result }
    {
        self.read(TablePlaces::FIRST_ARGUMENT + j + TablePlaces::INSTRUCTION_SIZE * i)
    }

    // Instruction `i`, its operator and its arguments.
    pub fn instruction_at(self, i: usize) -> Instruction
        requires { Operated self.cells.now i }
        ensures { IsInstruction (table_of self.entry.cells.now) i result }
    {
        Instruction {
            op: Operator::try_from(self.operator(i)).unwrap(),
            x: self.first(i),
            y: self.second(i),
            z: self.third(i),
        }
    }

    // The instruction that label `k` stands at.
    pub fn target(self, k: usize) -> usize
        requires { k < 128 }
        ensures { Number (label_in (table_of self.entry.cells.now) k).target 67108864 result }
    {
        Pair::of(self.read(TablePlaces::FIRST_LABEL + TablePlaces::LABEL_SIZE * k)).second
    }

    // Whether the name of label `k` is `word`.
    // All that this and `text_is` share is a call of `packed::spells`: the first cell of a label has its instruction too.
    pub fn name_is(self, k: usize, word: &[u8]) -> bool
        requires { k < 128 }
        ensures { result ≡ bytes_equal (label_in (table_of self.entry.cells.now) k).name word.now }
    {
        let head = Pair::of(self.read(TablePlaces::FIRST_LABEL + TablePlaces::LABEL_SIZE * k));
        packed::spells(
            self.row(TablePlaces::FIRST_NAME + TablePlaces::LABEL_SIZE * k),
            head.first,
            word,
        )
    }

    // Whether a text is `word`.
    // The three ways of a reference stand here and in `put_text`, since each does something else with a text.
    pub fn text_is(self, text: TextRef, word: &[u8]) -> bool
        requires { Placed text }
        ensures { result ≡ bytes_equal (text_of (table_of self.entry.cells.now) text) word.now }
    {
        match text {
            TextRef::Empty => word.is_empty(),
            TextRef::Byte(b) => [b].as_slice() == word,
            TextRef::Place(k) => packed::spells(
                self.row(TablePlaces::FIRST_CHARACTERS + TablePlaces::TEXT_SIZE * k),
                self.read(TablePlaces::FIRST_TEXT + TablePlaces::TEXT_SIZE * k),
                word,
            ),
        }
    }

    // Copies a text to the front of `out`.
    pub fn put_text(self, text: TextRef, out: &mut [u8]) -> usize
        requires { Into text (length out.old) }
        ensures { Copied (text_of (table_of self.entry.cells.now) text) out.old out.new result }
    {
        match text {
            TextRef::Empty => 0,
            TextRef::Byte(b) => {
                out[0] = b;
                1
            }
            TextRef::Place(k) => packed::put_chars(
                self.row(TablePlaces::FIRST_CHARACTERS + TablePlaces::TEXT_SIZE * k),
                self.read(TablePlaces::FIRST_TEXT + TablePlaces::TEXT_SIZE * k),
                out,
            ),
        }
    }

    // Whether switch `k` is a NAZWA, the first of its entries, and how many it has.
    pub fn switch_by_name(self, k: usize) -> bool
        requires { k < 32 }
        ensures { result ≡ (switch_in (table_of self.entry.cells.now) k).goes_by_name }
    {
        SwitchCell::of(self.read(TablePlaces::FIRST_SWITCH + k)).named
    }

    pub fn switch_first(self, k: usize) -> usize
        requires { k < 32 }
        ensures { Number (switch_first (table_of self.entry.cells.now) k) 8388608 result }
    {
        SwitchCell::of(self.read(TablePlaces::FIRST_SWITCH + k)).first
    }

    pub fn switch_count(self, k: usize) -> usize
        requires { k < 32 }
        ensures { Number (switch_size (table_of self.entry.cells.now) k) 256 result }
    {
        SwitchCell::of(self.read(TablePlaces::FIRST_SWITCH + k)).count
    }

    // The label of entry `e`, and its text.
    pub fn entry_label(self, e: usize) -> usize
        requires { e < 128 }
        ensures { Number (entry_in (table_of self.entry.cells.now) e).label 128 result }
    {
        EntryCell::of(self.read(TablePlaces::FIRST_ENTRY + e)).label
    }

    fn entry_text(self, e: usize) -> TextRef
        requires { e < 128 }
        ensures { RefersTo (entry_ref (table_of self.entry.cells.now) e) 33554432 result }
    {
        TextRef::from(EntryCell::of(self.read(TablePlaces::FIRST_ENTRY + e)).text)
    }

    // Whether entry `e` is met by `word`: by its label's name, or where it has a text by that.
    fn meets(self, e: usize, word: &[u8]) -> bool
        requires { Keyed self.cells.now e }
        ensures { result ≡ meets (program_of self.entry.cells.now) (entry_in (table_of self.entry.cells.now) e) word.now }
    {
        let named = self.name_is(self.entry_label(e), word);
        match self.entry_text(e) {
            TextRef::Empty => named,
            text => self.text_is(text, word) | named,
        }
    }

    // The first of the `count` entries from entry `first` on that is met by `word`, counted from `first`.
    pub fn find_entry(self, first: usize, count: usize, word: &[u8]) -> Option<usize>
        requires { Entries self.cells.now first count }
        ensures { result ≡ position (λ x. meets (program_of self.entry.cells.now) x word.now) (entries_from (table_of self.entry.cells.now) first count) }
    {
        (0..count).find(|k| self.meets(first + *k, word))
    }
}
