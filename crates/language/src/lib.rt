// The machine's own type, with the limits of document 01 as its constants, and the operators by their numbers.
#![tactic(auto)]

ghost use Rattle.std.specs.Prelude.{◌≡◌};
ghost use Rattle.language.specs.Limits.{listed};
ghost use Rattle.language.specs.Instructions.{operator_numbers};

// The machine. Its state is lent memory, so a value of this type holds nothing; its constants are the limits, as in specs/Limits.antt.
// The constants stand in a type: a use reads `Machine::TEXT`, and who passes the type on passes all; a module would read no plainer.
#[derive(Clone, Copy)]
pub struct Machine {}

impl Machine {
    pub const TEXT: usize = 32_768;

    pub const INSTRUCTIONS: usize = 512;

    pub const LABELS: usize = 128;

    pub const SWITCHES: usize = 32;

    pub const ENTRIES: usize = 128;

    pub const TEXTS: usize = 128;

    pub const NUMBERS: usize = 128;

    pub const SMALL: usize = 15;

    pub const ITEM: usize = 60;

    pub const EXPRESSIONS: usize = 32;

    pub const FILES: usize = 32;

    pub const INPUTS: usize = 2;

    pub const OUTPUTS: usize = 2;

    pub const INPUT: usize = 65_536;

    pub const COMPONENTS: usize = 1_024;

    pub const CHARACTERS: usize = 8_192;

    pub const RECORDS: usize = 256;

    pub const WORD: usize = 255;

    pub const OUTPUT: usize = 4_096;

    pub const STACK: usize = 64;

    pub const SIZE: usize = 8_388_607;

    pub const ADDRESSES: usize = 8_388_607;

    pub const TABLE: usize = 8_192;

    pub const STATE: usize = 40_960;
}

// The type's numbers are those of the definitions, each of them.
pub fn limits() -> [usize; 24]
    ensures { result ≡ listed }
{
    [
        Machine::TEXT,
        Machine::INSTRUCTIONS,
        Machine::LABELS,
        Machine::SWITCHES,
        Machine::ENTRIES,
        Machine::TEXTS,
        Machine::NUMBERS,
        Machine::SMALL,
        Machine::ITEM,
        Machine::EXPRESSIONS,
        Machine::FILES,
        Machine::INPUTS,
        Machine::OUTPUTS,
        Machine::INPUT,
        Machine::COMPONENTS,
        Machine::CHARACTERS,
        Machine::RECORDS,
        Machine::WORD,
        Machine::OUTPUT,
        Machine::STACK,
        Machine::SIZE,
        Machine::ADDRESSES,
        Machine::TABLE,
        Machine::STATE,
    ]
}

// The operators, by the numbers that the table of instructions has for them, specs/Instructions.antt.
#[derive(Clone, Copy, PartialEq, Eq, Debug)]
pub enum Operator {
    PRZESLIJ = 1,
    CZYTAJ = 2,
    PISZ = 3,
    KOPIUJ = 4,
    WSTAW = 5,
    POBIERZ = 6,
    SCHOWAJ = 7,
    USTAW = 8,
    ZAMIEN = 9,
    UMIESC = 10,
    USUN = 11,
    SKRESL = 12,
    RW = 13,
    WK = 14,
    MN = 15,
    PP = 16,
    NS = 17,
    RZ = 18,
    SKOCZ = 19,
    WYKONAJ = 20,
    SKOMI = 21,
    SKOPL = 22,
    WYMI = 23,
    WYPL = 24,
    SKONA = 25,
    SKOIN = 26,
    WYNA = 27,
    WYIN = 28,
    WROC = 29,
    DODAJ = 30,
    ODEJMIJ = 31,
    MNOZ = 32,
    DZIEL = 33,
    SLOWO = 34,
    LICZBA = 35,
    ZBIJ = 36,
    ROZBIJ = 37,
    SZUKAJ = 38,
    OMIN = 39,
    COFNIJ = 40,
    STOP = 41,
}

// A number that is no operator's.
#[derive(Clone, Copy, PartialEq, Eq, Debug)]
pub struct NoOperator;

impl From<Operator> for u8 {
    ghost use Rattle.std.specs.Prelude.{◌≡◌};
    ghost use Rattle.language.specs.Instructions.{number_of};
    ghost use Rattle.language.specs.Operators.{op_by};

    ghost from_gives = { λ o n. n ≡ number_of (op_by o) };

    fn from(o: Operator) -> u8 {
        o as u8
    }
}

impl TryFrom<u8> for Operator {
    ghost use Rattle.language.specs.Operators.{Numbers};

    type Error = NoOperator;

    ghost try_from_gives = { Numbers };

    fn try_from(n: u8) -> Result<Operator, NoOperator> {
        match n {
            1 => Ok(Operator::PRZESLIJ),
            2 => Ok(Operator::CZYTAJ),
            3 => Ok(Operator::PISZ),
            4 => Ok(Operator::KOPIUJ),
            5 => Ok(Operator::WSTAW),
            6 => Ok(Operator::POBIERZ),
            7 => Ok(Operator::SCHOWAJ),
            8 => Ok(Operator::USTAW),
            9 => Ok(Operator::ZAMIEN),
            10 => Ok(Operator::UMIESC),
            11 => Ok(Operator::USUN),
            12 => Ok(Operator::SKRESL),
            13 => Ok(Operator::RW),
            14 => Ok(Operator::WK),
            15 => Ok(Operator::MN),
            16 => Ok(Operator::PP),
            17 => Ok(Operator::NS),
            18 => Ok(Operator::RZ),
            19 => Ok(Operator::SKOCZ),
            20 => Ok(Operator::WYKONAJ),
            21 => Ok(Operator::SKOMI),
            22 => Ok(Operator::SKOPL),
            23 => Ok(Operator::WYMI),
            24 => Ok(Operator::WYPL),
            25 => Ok(Operator::SKONA),
            26 => Ok(Operator::SKOIN),
            27 => Ok(Operator::WYNA),
            28 => Ok(Operator::WYIN),
            29 => Ok(Operator::WROC),
            30 => Ok(Operator::DODAJ),
            31 => Ok(Operator::ODEJMIJ),
            32 => Ok(Operator::MNOZ),
            33 => Ok(Operator::DZIEL),
            34 => Ok(Operator::SLOWO),
            35 => Ok(Operator::LICZBA),
            36 => Ok(Operator::ZBIJ),
            37 => Ok(Operator::ROZBIJ),
            38 => Ok(Operator::SZUKAJ),
            39 => Ok(Operator::OMIN),
            40 => Ok(Operator::COFNIJ),
            41 => Ok(Operator::STOP),
            _ => Err(NoOperator),
        }
    }
}

// Their numbers are those of the table, each of them.
pub fn operators() -> [u8; 41]
    ensures { result ≡ operator_numbers }
{
    [
        Operator::PRZESLIJ as u8,
        Operator::CZYTAJ as u8,
        Operator::PISZ as u8,
        Operator::KOPIUJ as u8,
        Operator::WSTAW as u8,
        Operator::POBIERZ as u8,
        Operator::SCHOWAJ as u8,
        Operator::USTAW as u8,
        Operator::ZAMIEN as u8,
        Operator::UMIESC as u8,
        Operator::USUN as u8,
        Operator::SKRESL as u8,
        Operator::RW as u8,
        Operator::WK as u8,
        Operator::MN as u8,
        Operator::PP as u8,
        Operator::NS as u8,
        Operator::RZ as u8,
        Operator::SKOCZ as u8,
        Operator::WYKONAJ as u8,
        Operator::SKOMI as u8,
        Operator::SKOPL as u8,
        Operator::WYMI as u8,
        Operator::WYPL as u8,
        Operator::SKONA as u8,
        Operator::SKOIN as u8,
        Operator::WYNA as u8,
        Operator::WYIN as u8,
        Operator::WROC as u8,
        Operator::DODAJ as u8,
        Operator::ODEJMIJ as u8,
        Operator::MNOZ as u8,
        Operator::DZIEL as u8,
        Operator::SLOWO as u8,
        Operator::LICZBA as u8,
        Operator::ZBIJ as u8,
        Operator::ROZBIJ as u8,
        Operator::SZUKAJ as u8,
        Operator::OMIN as u8,
        Operator::COFNIJ as u8,
        Operator::STOP as u8,
    ]
}

// Of `characters`, passed on to the crates above.
pub mod from_characters {
    pub use characters::{is_capital, is_digit, is_known};
}
