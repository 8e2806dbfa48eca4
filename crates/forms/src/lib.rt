// The argument forms of the 41 instructions as sets of bits.
#![tactic(auto)]

ghost use Rattle.std.specs.Prelude.{◌≡◌, not, ◌&&◌, ◌+◌, ◌^◌, ◌<◌, ◌≤◌, eqb, ltb, count_by, get_or};
ghost use Rattle.std.specs.Int.Bits.{bit_and};
ghost use Rattle.std.specs.Option.{option_map};
ghost use Rattle.forms.specs.Forms.{Sets, SetsOf, sets, nothing, set_at, most_of, least_of, calls, ends, only};
ghost use Rattle.forms.specs.Letters.{letter};
ghost use Rattle.table.specs.Denote.{letter_of};
ghost use Rattle.words.specs.Below.Table.{letter_place};
ghost use Rattle.language.specs.Instructions.{operation, is_call, is_end};
ghost use Rattle.language.specs.Operators.{op_by};
ghost use Rattle.forms.specs.Reading.{if_form, if_taken, read_as, shared, taken, taken_at};

use language::Operator;
use table::Letter;

// What an argument is read as: an indexed letter, a number, a class, a text, a label, or a switch NAZWA or INDEKS.
#[derive(Clone, Copy, Debug, PartialEq, Eq)]
pub enum Form {
    Letter(Letter),
    Number,
    Class,
    Text,
    Label,
    Nazwa,
    Indeks,
}

// A set of forms and of nothing, a bit for each: the letters by their places among the twelve, then the others.
#[derive(Clone, Copy, Debug, PartialEq, Eq)]
pub struct Forms {
    bits: u32,
}

impl Forms {
    pub const EMPTY: Forms = Forms { bits: 0 };

    pub const A: Forms = Forms {
        bits: 1 << Letter::A as u32,
    };

    pub const B: Forms = Forms {
        bits: 1 << Letter::B as u32,
    };

    pub const C: Forms = Forms {
        bits: 1 << Letter::C as u32,
    };

    pub const D: Forms = Forms {
        bits: 1 << Letter::D as u32,
    };

    pub const E: Forms = Forms {
        bits: 1 << Letter::E as u32,
    };

    pub const I: Forms = Forms {
        bits: 1 << Letter::I as u32,
    };

    pub const N: Forms = Forms {
        bits: 1 << Letter::N as u32,
    };

    pub const P: Forms = Forms {
        bits: 1 << Letter::P as u32,
    };

    pub const Q: Forms = Forms {
        bits: 1 << Letter::Q as u32,
    };

    pub const T: Forms = Forms {
        bits: 1 << Letter::T as u32,
    };

    pub const Y: Forms = Forms {
        bits: 1 << Letter::Y as u32,
    };

    pub const Z: Forms = Forms {
        bits: 1 << Letter::Z as u32,
    };

    pub const NUMBER: Forms = Forms {
        bits: Self::Z.bits << 1,
    };

    pub const CLASS: Forms = Forms {
        bits: Self::NUMBER.bits << 1,
    };

    pub const TEXT: Forms = Forms {
        bits: Self::CLASS.bits << 1,
    };

    pub const LABEL: Forms = Forms {
        bits: Self::TEXT.bits << 1,
    };

    pub const NAZWA: Forms = Forms {
        bits: Self::LABEL.bits << 1,
    };

    pub const INDEKS: Forms = Forms {
        bits: Self::NAZWA.bits << 1,
    };

    pub const NOTHING: Forms = Forms {
        bits: Self::INDEKS.bits << 1,
    };

    // What an identifier reads as, besides a class or an indexed letter.
    pub const NAME: Forms = Forms {
        bits: Self::LABEL.bits + Self::NAZWA.bits + Self::INDEKS.bits,
    };

    pub const NAMED_CLASS: Forms = Forms {
        bits: Self::NAME.bits + Self::CLASS.bits,
    };

    // The sets that instructions list.
    const AB: Forms = Forms {
        bits: Self::A.bits + Self::B.bits,
    };

    const ABYZ: Forms = Forms {
        bits: Self::A.bits + Self::B.bits + Self::Y.bits + Self::Z.bits,
    };

    const TEST: Forms = Forms {
        bits: Self::NOTHING.bits
            + Self::NUMBER.bits
            + Self::N.bits
            + Self::CLASS.bits
            + Self::TEXT.bits
            + Self::B.bits
            + Self::T.bits,
    };

    const CD: Forms = Forms {
        bits: Self::C.bits + Self::D.bits,
    };

    const RECORD_TEST: Forms = Forms {
        bits: Self::NOTHING.bits
            + Self::NUMBER.bits
            + Self::N.bits
            + Self::TEXT.bits
            + Self::B.bits
            + Self::T.bits
            + Self::E.bits,
    };

    const NUMBER_TEXT: Forms = Forms {
        bits: Self::NUMBER.bits + Self::TEXT.bits,
    };

    const ABYZCD: Forms = Forms {
        bits: Self::A.bits
            + Self::B.bits
            + Self::Y.bits
            + Self::Z.bits
            + Self::C.bits
            + Self::D.bits,
    };

    const AI: Forms = Forms {
        bits: Self::A.bits + Self::I.bits,
    };

    const ABT: Forms = Forms {
        bits: Self::A.bits + Self::B.bits + Self::T.bits,
    };

    const COUNT: Forms = Forms {
        bits: Self::NUMBER.bits + Self::N.bits,
    };

    const ABTI: Forms = Forms {
        bits: Self::A.bits + Self::B.bits + Self::T.bits + Self::I.bits,
    };

    const KIND: Forms = Forms {
        bits: Self::TEXT.bits + Self::CLASS.bits + Self::B.bits + Self::T.bits,
    };

    const NUMBER_B: Forms = Forms {
        bits: Self::NUMBER.bits + Self::B.bits,
    };

    const TEXT_B: Forms = Forms {
        bits: Self::TEXT.bits + Self::B.bits,
    };

    const RZ_TEST: Forms = Forms {
        bits: Self::NUMBER.bits
            + Self::TEXT.bits
            + Self::B.bits
            + Self::E.bits
            + Self::N.bits
            + Self::T.bits,
    };

    // The set of a letter.
    pub fn letter(letter: Letter) -> Forms
        ensures { (result.bits ≡ 2 ^ letter_place (letter_of letter)) × (result.bits < 4096) }
    {
        Forms {
            bits: 1u32 << letter as u32,
        }
    }

    // The forms of a name with those of a letter.
    pub fn named(self) -> Forms
        requires { self.bits < 4096 }
        ensures { result.bits ≡ 229376 + self.bits }
    {
        Forms {
            bits: Self::NAME.bits + self.bits,
        }
    }

    fn and(self, other: Forms) -> Forms
        ensures { result.bits ≡ bit_and self.bits other.bits }
    {
        Forms {
            bits: self.bits & other.bits,
        }
    }

    // Whether it shares a form with another.
    pub fn meets(self, other: Forms) -> bool
        ensures { result ≡ not (eqb (bit_and self.bits other.bits) 0) }
    {
        self.bits & other.bits != 0
    }

    // The form of a set of one, but for nothing.
    #[tactic(auto, using(crate::proofs::Readings::only_arm, crate::proofs::Readings::only_rest), unfolding(crate::specs::Forms::only))]
    fn only(self) -> Option<Form>
        ensures { option_map letter result ≡ if_form (only self.bits) }
    {
        Some(match self {
            Self::A => Form::Letter(Letter::A),
            Self::B => Form::Letter(Letter::B),
            Self::C => Form::Letter(Letter::C),
            Self::D => Form::Letter(Letter::D),
            Self::E => Form::Letter(Letter::E),
            Self::I => Form::Letter(Letter::I),
            Self::N => Form::Letter(Letter::N),
            Self::P => Form::Letter(Letter::P),
            Self::Q => Form::Letter(Letter::Q),
            Self::T => Form::Letter(Letter::T),
            Self::Y => Form::Letter(Letter::Y),
            Self::Z => Form::Letter(Letter::Z),
            Self::NUMBER => Form::Number,
            Self::CLASS => Form::Class,
            Self::TEXT => Form::Text,
            Self::LABEL => Form::Label,
            Self::NAZWA => Form::Nazwa,
            Self::INDEKS => Form::Indeks,
            _ => return None,
        })
    }
}

// Which of an instruction's lists take the arguments so far.
#[derive(Clone, Copy, Debug, PartialEq, Eq)]
pub enum Live {
    First,
    Second,
    Both,
}

// The form that an argument is read by, and the lists that are left.
#[derive(Clone, Copy, Debug, PartialEq, Eq)]
pub struct Taken {
    pub form: Form,
    pub live: Live,
}

// The sets of an instruction's three places.
type Places = [Forms; 3];

// An instruction's first list.
#[tactic(auto, unfolding(crate::specs::Forms::SetsOf))]
fn first_list(op: Operator) -> Places
    ensures { SetsOf (op_by op) 0 result }
{
    match op {
        Operator::PRZESLIJ => [Forms::AB, Forms::ABYZ, Forms::TEST],
        Operator::CZYTAJ => [Forms::I, Forms::ABYZ, Forms::TEST],
        Operator::PISZ => [Forms::AB, Forms::Q, Forms::TEST],
        Operator::KOPIUJ => [Forms::CD, Forms::CD, Forms::RECORD_TEST],
        Operator::WSTAW => [Forms::AB, Forms::CD, Forms::NOTHING],
        Operator::POBIERZ => [Forms::CD, Forms::ABYZ, Forms::NOTHING],
        Operator::SCHOWAJ => [Forms::P, Forms::ABYZ, Forms::NOTHING],
        Operator::USTAW => [Forms::AB, Forms::P, Forms::NOTHING],
        Operator::ZAMIEN => [Forms::E, Forms::E, Forms::NOTHING],
        Operator::UMIESC => [Forms::NUMBER_TEXT, Forms::ABYZCD, Forms::NOTHING],
        Operator::USUN => [Forms::AI, Forms::TEST, Forms::NOTHING],
        Operator::SKRESL => [Forms::C, Forms::RECORD_TEST, Forms::NOTHING],
        Operator::RW => [Forms::ABT, Forms::COUNT, Forms::NOTHING],
        Operator::WK => [Forms::B, Forms::NUMBER_B, Forms::NOTHING],
        Operator::MN => [Forms::B, Forms::NUMBER_B, Forms::NOTHING],
        Operator::PP => [Forms::B, Forms::TEXT_B, Forms::NOTHING],
        Operator::NS => [Forms::B, Forms::TEXT_B, Forms::NOTHING],
        Operator::RZ => [Forms::P, Forms::RZ_TEST, Forms::NOTHING],
        Operator::SKOCZ => [Forms::LABEL, Forms::NOTHING, Forms::NOTHING],
        Operator::WYKONAJ => [Forms::LABEL, Forms::NOTHING, Forms::NOTHING],
        Operator::SKOMI => [Forms::LABEL, Forms::NOTHING, Forms::NOTHING],
        Operator::SKOPL => [Forms::LABEL, Forms::NOTHING, Forms::NOTHING],
        Operator::WYMI => [Forms::LABEL, Forms::NOTHING, Forms::NOTHING],
        Operator::WYPL => [Forms::LABEL, Forms::NOTHING, Forms::NOTHING],
        Operator::SKONA => [Forms::AB, Forms::NAZWA, Forms::NOTHING],
        Operator::SKOIN => [Forms::AB, Forms::INDEKS, Forms::NOTHING],
        Operator::WYNA => [Forms::AB, Forms::NAZWA, Forms::NOTHING],
        Operator::WYIN => [Forms::AB, Forms::INDEKS, Forms::NOTHING],
        Operator::WROC => [Forms::NOTHING, Forms::NOTHING, Forms::NOTHING],
        Operator::DODAJ => [Forms::A, Forms::NUMBER_B, Forms::NOTHING],
        Operator::ODEJMIJ => [Forms::A, Forms::NUMBER_B, Forms::NOTHING],
        Operator::MNOZ => [Forms::A, Forms::NUMBER_B, Forms::NOTHING],
        Operator::DZIEL => [Forms::A, Forms::NUMBER_B, Forms::NOTHING],
        Operator::SLOWO => [Forms::AB, Forms::NOTHING, Forms::NOTHING],
        Operator::LICZBA => [Forms::AB, Forms::NOTHING, Forms::NOTHING],
        Operator::ZBIJ => [Forms::AB, Forms::TEST, Forms::NOTHING],
        Operator::ROZBIJ => [Forms::AB, Forms::TEST, Forms::NOTHING],
        Operator::SZUKAJ => [Forms::AB, Forms::NAZWA, Forms::NOTHING],
        Operator::OMIN => [Forms::P, Forms::RECORD_TEST, Forms::NOTHING],
        Operator::COFNIJ => [Forms::P, Forms::NOTHING, Forms::NOTHING],
        Operator::STOP => [Forms::NOTHING, Forms::NOTHING, Forms::NOTHING],
    }
}

// Its second list, where it has one.
// A table of its own: its three rows are other data than the 41 of the first, and what the two share is the type of a row.
#[tactic(auto, unfolding(crate::specs::Forms::SetsOf))]
fn second_list(op: Operator) -> Places
    ensures { SetsOf (op_by op) 1 result }
{
    match op {
        Operator::ZAMIEN => [Forms::P, Forms::P, Forms::NOTHING],
        Operator::UMIESC => [Forms::TEXT, Forms::Q, Forms::NOTHING],
        Operator::RW => [Forms::ABTI, Forms::KIND, Forms::NOTHING],
        _ => [Forms::EMPTY; 3],
    }
}

// Its lists by their numbers; no instruction has more than two. The promise holds for any number, so an enum would ask more.
#[tactic(auto, using(crate::proofs::Tables::past_list))]
fn list_of(op: Operator, list: u8) -> Places
    ensures { SetsOf (op_by op) list result }
{
    match list {
        0 => first_list(op),
        1 => second_list(op),
        _ => [Forms::EMPTY; 3],
    }
}

// Those of an operator by its number; of a number that is no operator's, empty sets. With `map_or` in place of the match its promise was not proved.
#[tactic(auto, using(crate::proofs::Tables::listed_sets, crate::proofs::Tables::no_sets))]
fn sets_by(op: u8, list: u8) -> Places
    ensures { Sets op list result }
{
    match Operator::try_from(op) {
        Ok(o) => list_of(o, list),
        Err(_) => [Forms::EMPTY; 3],
    }
}

fn at_place(p: Places, place: u8) -> Forms
    ensures { result.bits ≡ get_or (sets p) place 0 }
{
    p.get(usize::from(place)).copied().unwrap_or(Forms::EMPTY)
}

// The set of forms that an instruction's list, 0 or 1, has for a place from 0.
#[tactic(auto, using(crate::proofs::Tables::set_in))]
pub fn forms_at(op: u8, list: u8, place: u8) -> Forms
    ensures { result.bits ≡ set_at op list place }
{
    at_place(sets_by(op, list), place)
}

// Of how many places the set has more than nothing; an empty one stands for no set.
fn not_empty(p: Places) -> usize
    ensures { result ≡ count_by (λ s. not (eqb s 0) && not (eqb s nothing)) (sets p) }
{
    p.iter()
        .filter(|set| (set.bits != 0) & (set.bits != Forms::NOTHING.bits))
        .count()
}

// And of how many it lacks the last of the forms, nothing.
fn needed(p: Places) -> usize
    ensures { result ≡ count_by (λ s. not (eqb s 0) && ltb s nothing) (sets p) }
{
    p.iter()
        .filter(|set| (set.bits != 0) & (set.bits < Forms::NOTHING.bits))
        .count()
}

// How many arguments an instruction takes at most.
pub fn most(op: u8) -> u8
    ensures { (result ≡ most_of op) × (result ≤ 3) }
{
    not_empty(sets_by(op, 0)) as u8
}

// And at least.
pub fn least(op: u8) -> u8
    ensures { (result ≡ least_of op) × (result ≤ 3) }
{
    needed(sets_by(op, 0)) as u8
}

fn calling(op: Operator) -> bool
    ensures { result ≡ is_call (operation (op_by op)).flow }
{
    matches!(
        op,
        Operator::WYKONAJ | Operator::WYMI | Operator::WYPL | Operator::WYNA | Operator::WYIN
    )
}

// "The last of them STOP, SKOCZ or WROC".
fn ending(op: Operator) -> bool
    ensures { result ≡ is_end (operation (op_by op)).flow }
{
    matches!(op, Operator::SKOCZ | Operator::WROC | Operator::STOP)
}

// Whether an instruction calls, by its operator's number.
pub fn is_call(op: u8) -> bool
    ensures { result ≡ calls op }
{
    Operator::try_from(op).is_ok_and(calling)
}

// Whether it never goes on to the following one.
pub fn is_end(op: u8) -> bool
    ensures { result ≡ ends op }
{
    Operator::try_from(op).is_ok_and(ending)
}

// The forms that an argument shares with a set, where its list lives.
#[tactic(auto, unfolding(crate::specs::Reading::shared))]
fn shared(lives: bool, kinds: Forms, set: Forms) -> Forms
    ensures { result.bits ≡ shared lives kinds.bits set.bits }
{
    if lives { kinds.and(set) } else { Forms::EMPTY }
}

// What is taken by the form of a set of one.
fn taken_as(set: Forms, live: Live) -> Option<Taken>
    ensures { option_map read_as result ≡ if_taken (record { form = only set.bits; live = live }) }
{
    set.only().map(|form| Taken { form, live })
}

#[tactic(auto, unfolding(crate::specs::Reading::taken))]
fn taken_by(live: Live, a: Forms, b: Forms) -> Option<Taken>
    ensures { option_map read_as result ≡ if_taken (taken live a.bits b.bits) }
{
    match (a, b) {
        (Forms::EMPTY, Forms::EMPTY) => None,
        (Forms::EMPTY, _) => taken_as(b, Live::Second),
        (_, Forms::EMPTY) => taken_as(a, Live::First),
        _ => taken_as(a, Live::Both),
    }
}

// An argument at a place, by the forms that it reads as. It leaves the lists that take it.
#[tactic(auto, using(crate::proofs::Readings::taken_parts))]
pub fn take_argument(op: u8, live: Live, place: u8, kinds: Forms) -> Option<Taken>
    ensures { option_map read_as result ≡ if_taken (taken_at op live place kinds.bits) }
{
    let a = shared(live != Live::Second, kinds, forms_at(op, 0, place));
    let b = shared(live != Live::First, kinds, forms_at(op, 1, place));
    taken_by(live, a, b)
}
