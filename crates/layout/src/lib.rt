// The places of a program table and of a state at rest as constants of two types, and the kinds of arguments; the layouts themselves are definitions and laws.
#![tactic(auto)]

ghost use Rattle.std.specs.Prelude.{◌≡◌, cond, ◌+◌, ◌*◌, ◌/◌, ◌%◌, ◌<◌, ◌++◌, eqb};
ghost use Rattle.layout.specs.ArgumentKinds.{number, IsKind};
ghost use Rattle.layout.specs.Kinds.{kinds};
ghost use Rattle.layout.specs.Places.{listed, sizes};

// A program table. Its cells are lent memory, so a value of this type holds nothing; its constants are places and counts of cells, and counts of
// references, as in specs/Places.antt.
// The constants stand in a type: a use reads `TablePlaces::FIRST_TEXT`, and who passes the type on passes all; a module would read no plainer.
#[derive(Clone, Copy)]
pub struct TablePlaces {}

impl TablePlaces {
    pub const INSTRUCTION_COUNT: usize = 0;

    pub const LABEL_COUNT: usize = 1;

    pub const SWITCH_COUNT: usize = 2;

    pub const ENTRY_COUNT: usize = 3;

    pub const TEXT_COUNT: usize = 4;

    pub const NUMBER_COUNT: usize = 5;

    pub const FIRST_SPARE: usize = 6;

    pub const LAST_SPARE: usize = 7;

    pub const FIRST_INSTRUCTION: usize = 8;

    pub const FIRST_ARGUMENT: usize = 9;

    pub const SECOND_ARGUMENT: usize = 10;

    pub const THIRD_ARGUMENT: usize = 11;

    pub const FIRST_LABEL: usize = 2056;

    pub const FIRST_NAME: usize = 2057;

    pub const FIRST_TEXT: usize = 4104;

    pub const FIRST_CHARACTERS: usize = 4105;

    pub const FIRST_SWITCH: usize = 6152;

    pub const FIRST_ENTRY: usize = 6184;

    pub const FIRST_NUMBER: usize = 6312;

    // How many cells an instruction has, and a label and a text: so far apart two of them stand.
    pub const INSTRUCTION_SIZE: usize = 4;

    pub const LABEL_SIZE: usize = 16;

    pub const TEXT_SIZE: usize = 16;

    // The references below this are those of the numbers from -15 to 15; number k of the table has this + k.
    pub const SMALL_NUMBERS: usize = 31;

    // The references below this are those of the texts of no character and of one; text k of the table has this + k.
    pub const SHORT_TEXTS: usize = 256;
}

// A state: scalars, strings and cells, in the same way.
// The constants stand in a type: a use reads `StatePlaces::FIRST_FILE`, and who passes the type on passes all; a module would read no plainer.
#[derive(Clone, Copy)]
pub struct StatePlaces {}

impl StatePlaces {
    pub const PLUS_SCALAR: usize = 0;

    pub const FIRST_PLACE: usize = 1;

    pub const SECOND_PLACE: usize = 2;

    pub const NEXT_SCALAR: usize = 3;

    pub const LAST_SCALAR: usize = 4;

    pub const COMPONENTS_SCALAR: usize = 5;

    pub const CHARACTERS_SCALAR: usize = 6;

    pub const RECORDS_SCALAR: usize = 7;

    pub const SCALARS_COUNT: usize = 8;

    pub const PLUS_CELL: usize = 0;

    pub const FIRST_PLACE_CELL: usize = 3;

    pub const SECOND_PLACE_CELL: usize = 6;

    pub const NEXT_CELL: usize = 9;

    pub const LAST_CELL: usize = 12;

    pub const COMPONENTS_CELL: usize = 15;

    pub const CHARACTERS_CELL: usize = 18;

    pub const RECORDS_CELL: usize = 21;

    pub const FIRST_LENGTH: usize = 24;

    pub const FIRST_BYTE: usize = 222;

    pub const FIRST_FILE: usize = 32;

    pub const FILE_STRINGS_COUNT: usize = 64;

    pub const STACK_STRING: usize = 96;

    pub const FIRST_OUTPUT: usize = 97;

    pub const SECOND_OUTPUT: usize = 98;

    pub const STRINGS_COUNT: usize = 99;

    pub const ENDS_COUNT: usize = 198;

    pub const LENGTHS_BYTES: usize = 198;

    pub const STRINGS_BYTES: usize = 40936;

    pub const ROOM: usize = 40738;

    // The length of a row that any string fits in: at work all strings together have so many bytes at most.
    pub const ROW: usize = 32768;
}

// The kinds of arguments, as in specs/Kinds.antt. An argument's cell is the number of its kind + 8 · its value; that of nothing is 0.
#[derive(Clone, Copy, Debug, PartialEq, Eq)]
pub enum ArgumentKind {
    Nothing,
    Letter,
    Label,
    Switch,
    Class,
    Text,
    Number,
}

// For a number that is no kind's.
#[derive(Clone, Copy, Debug, PartialEq, Eq)]
pub struct NoKind;

impl From<ArgumentKind> for usize {
    ghost use Rattle.layout.specs.ArgumentKinds.{IsNumber};

    ghost from_gives = { IsNumber };

    fn from(kind: ArgumentKind) -> usize {
        kind as usize
    }
}

impl TryFrom<usize> for ArgumentKind {
    type Error = NoKind;

    ghost try_from_gives = { IsKind };

    fn try_from(n: usize) -> Result<ArgumentKind, NoKind> {
        match n {
            0 => Ok(ArgumentKind::Nothing),
            1 => Ok(ArgumentKind::Letter),
            2 => Ok(ArgumentKind::Label),
            3 => Ok(ArgumentKind::Switch),
            4 => Ok(ArgumentKind::Class),
            5 => Ok(ArgumentKind::Text),
            6 => Ok(ArgumentKind::Number),
            _ => Err(NoKind),
        }
    }
}

impl ArgumentKind {
    // A value stands this many times in a cell; what is left over is the number of the kind.
    const FOLD: usize = 8;

    // The cell of an argument of the kind.
    pub fn cell(self, value: usize) -> usize
        requires { value < 536870912 }
        ensures { (result ≡ number self + 8 * value) × (result < 4294967296) }
    {
        usize::from(self) + ArgumentKind::FOLD * value
    }

    // The kind of the argument in a cell `x`.
    pub fn in_cell(x: usize) -> Result<ArgumentKind, NoKind>
        ensures { IsKind (x % 8) result }
    {
        ArgumentKind::try_from(x % ArgumentKind::FOLD)
    }

    // Whether the argument in a cell `x` is of the kind.
    pub fn is_in(self, x: usize) -> bool
        ensures { result ≡ eqb (x % 8) (number self) }
    {
        x % ArgumentKind::FOLD == usize::from(self)
    }

    // The value of the argument in a cell `x`.
    pub fn value_in(x: usize) -> usize
        ensures { result ≡ x / 8 }
    {
        x / ArgumentKind::FOLD
    }
}

// Two numbers in one: the first, which is below 64, and the second 64-fold. Such pairs are operator and line of an instruction, length of the name and
// instruction of a label, and index and letter of an argument.
#[derive(Clone, Copy, Debug, PartialEq, Eq)]
pub struct Pair {
    pub first: usize,
    pub second: usize,
}

impl Pair {
    // The second number stands this many times in the one that has both; what is left over is the first.
    const FOLD: usize = 64;

    // The pair that `x` has.
    pub fn of(x: usize) -> Pair
        ensures { (result.first ≡ x % 64) × (result.second ≡ x / 64) }
    {
        Pair {
            first: x % Pair::FOLD,
            second: x / Pair::FOLD,
        }
    }

    // The number that has the pair.
    pub fn number(self) -> usize
        requires { self.first + 64 * self.second < 4294967296 }
        ensures { result ≡ self.first + 64 * self.second }
    {
        self.first + Pair::FOLD * self.second
    }
}

// A switch in one number: 1 for NAZWA, twice the count of its entries, which is below 256, and 512-fold the first of them.
#[derive(Clone, Copy, Debug, PartialEq, Eq)]
pub struct SwitchCell {
    pub named: bool,
    pub count: usize,
    pub first: usize,
}

impl SwitchCell {
    // The count and the first entry stand these many times in the number that has the switch.
    const COUNT_FOLD: usize = 2;

    const FIRST_FOLD: usize = 512;

    // The switch that `x` has.
    pub fn of(x: usize) -> SwitchCell
        ensures { (result.named ≡ eqb (x % 2) 1) × (result.count ≡ x / 2 % 256) × (result.first ≡ x / 512) }
    {
        SwitchCell {
            named: x % SwitchCell::COUNT_FOLD == 1,
            count: x % SwitchCell::FIRST_FOLD / SwitchCell::COUNT_FOLD,
            first: x / SwitchCell::FIRST_FOLD,
        }
    }

    // The number that has the switch.
    pub fn number(self) -> usize
        requires { cond self.named 1 0 + 2 * self.count + 512 * self.first < 4294967296 }
        ensures { result ≡ cond self.named 1 0 + 2 * self.count + 512 * self.first }
    {
        usize::from(self.named)
            + SwitchCell::COUNT_FOLD * self.count
            + SwitchCell::FIRST_FOLD * self.first
    }
}

// An entry of a switch in one number: its label, which is below 128, and 128-fold the reference to its text.
#[derive(Clone, Copy, Debug, PartialEq, Eq)]
pub struct EntryCell {
    pub label: usize,
    pub text: usize,
}

impl EntryCell {
    // The reference stands this many times in the number that has the entry; what is left over is the label.
    const FOLD: usize = 128;

    // The entry that `x` has.
    pub fn of(x: usize) -> EntryCell
        ensures { (result.label ≡ x % 128) × (result.text ≡ x / 128) }
    {
        EntryCell {
            label: x % EntryCell::FOLD,
            text: x / EntryCell::FOLD,
        }
    }

    // The number that has the entry.
    pub fn number(self) -> usize
        requires { self.label + 128 * self.text < 4294967296 }
        ensures { result ≡ self.label + 128 * self.text }
    {
        self.label + EntryCell::FOLD * self.text
    }
}

// The types' numbers are those of the definitions, each of them.
pub fn places() -> [usize; 54]
    ensures { result ≡ listed ++ kinds }
{
    [
        TablePlaces::INSTRUCTION_COUNT,
        TablePlaces::LABEL_COUNT,
        TablePlaces::SWITCH_COUNT,
        TablePlaces::ENTRY_COUNT,
        TablePlaces::TEXT_COUNT,
        TablePlaces::NUMBER_COUNT,
        TablePlaces::FIRST_SPARE,
        TablePlaces::LAST_SPARE,
        TablePlaces::FIRST_INSTRUCTION,
        TablePlaces::FIRST_ARGUMENT,
        TablePlaces::SECOND_ARGUMENT,
        TablePlaces::THIRD_ARGUMENT,
        TablePlaces::FIRST_LABEL,
        TablePlaces::FIRST_NAME,
        TablePlaces::FIRST_TEXT,
        TablePlaces::FIRST_CHARACTERS,
        TablePlaces::FIRST_SWITCH,
        TablePlaces::FIRST_ENTRY,
        TablePlaces::FIRST_NUMBER,
        StatePlaces::PLUS_SCALAR,
        StatePlaces::FIRST_PLACE,
        StatePlaces::SECOND_PLACE,
        StatePlaces::NEXT_SCALAR,
        StatePlaces::LAST_SCALAR,
        StatePlaces::COMPONENTS_SCALAR,
        StatePlaces::CHARACTERS_SCALAR,
        StatePlaces::RECORDS_SCALAR,
        StatePlaces::SCALARS_COUNT,
        StatePlaces::PLUS_CELL,
        StatePlaces::FIRST_PLACE_CELL,
        StatePlaces::SECOND_PLACE_CELL,
        StatePlaces::NEXT_CELL,
        StatePlaces::LAST_CELL,
        StatePlaces::COMPONENTS_CELL,
        StatePlaces::CHARACTERS_CELL,
        StatePlaces::RECORDS_CELL,
        StatePlaces::FIRST_LENGTH,
        StatePlaces::FIRST_BYTE,
        StatePlaces::FIRST_FILE,
        StatePlaces::FILE_STRINGS_COUNT,
        StatePlaces::STACK_STRING,
        StatePlaces::FIRST_OUTPUT,
        StatePlaces::SECOND_OUTPUT,
        StatePlaces::STRINGS_COUNT,
        StatePlaces::ENDS_COUNT,
        StatePlaces::LENGTHS_BYTES,
        StatePlaces::STRINGS_BYTES,
        StatePlaces::ROOM,
        ArgumentKind::Letter as usize,
        ArgumentKind::Label as usize,
        ArgumentKind::Switch as usize,
        ArgumentKind::Class as usize,
        ArgumentKind::Text as usize,
        ArgumentKind::Number as usize,
    ]
}

// So are the types' sizes and counts.
pub fn sizes() -> [usize; 6]
    ensures { result ≡ sizes }
{
    [
        TablePlaces::INSTRUCTION_SIZE,
        TablePlaces::LABEL_SIZE,
        TablePlaces::TEXT_SIZE,
        TablePlaces::SMALL_NUMBERS,
        TablePlaces::SHORT_TEXTS,
        StatePlaces::ROW,
    ]
}

// Of `language`, passed on to the crates above.
pub mod from_language {
    pub use machine::from_language::Machine;
}
