// The state at work, as one value: what contracts see of it is the machine's state.
#![tactic(auto)]

ghost use Rattle.std.specs.Prelude.{◌≡◌, ◌<◌, ◌≤◌, ◌+◌, ◌-◌, true, false, cond, length, get_or};
ghost use Rattle.store.specs.Below.Letters.Letter.{I, Q};
ghost use Rattle.store.specs.Below.Changes.{with_plus, minus_unless, into, printed, past};
ghost use Rattle.store.specs.Below.Components.{components_in};
ghost use Rattle.store.specs.Below.Limits as limit;
ghost use Rattle.store.specs.Below.LayoutPlaces.{plus_scalar, next_scalar, last_scalar, components_scalar, characters_scalar, records_scalar, row};
ghost use Rattle.strings.specs.Strings.{Pushable};
ghost use Rattle.state.specs.Working.{HoldsState, Stands, on_store, nth, reading, writing, row_of};
ghost use Rattle.state.specs.Blocks.{Told, ReadTo, ExprLent, OutputLong, Readable, exprs_exchanged, pushed, totalled, Raisable, Lowerable, PartsDroppable, PartsWritable, Printable};

use components::Amount;
use layout::StatePlaces;
use std::marker::Model;
use strings::Strings;

// What components or records are read from, and whether they are removed there. A bool, as in the two targets: the letters of the specification are
// told by one, `reading`, `filing : Bool -> Letter`, and so are the ends by `writing`.
#[derive(Clone, Copy, Debug, PartialEq, Eq)]
pub struct Source {
    pub removes: bool,
    pub i: usize,
}

// What components are written to: turned round or not, at the end or in front.
#[derive(Clone, Copy, Debug, PartialEq, Eq)]
pub struct Target {
    pub reverses: bool,
    pub at_end: bool,
    pub j: usize,
}

// What records are written to: turned round and right after the pointer of a file, or in their order and right before it.
#[derive(Clone, Copy, Debug, PartialEq, Eq)]
pub struct FileTarget {
    pub reverses: bool,
    pub j: usize,
}

impl Source {
    // The front of what is read, where what becomes of it is put in its order.
    pub fn front(self) -> Target
        ensures { result ≡ record { reverses = false; at_end = false; j = self.i } }
    {
        Target {
            reverses: false,
            at_end: false,
            j: self.i,
        }
    }

    // What is freed where so much is read: all of it where it is removed here, else nothing.
    pub fn freed(self, amount: Amount) -> Amount
        ensures { result ≡ record { parts = cond self.removes amount.parts 0; bytes = cond self.removes amount.bytes 0; chars = cond self.removes amount.chars 0 } }
    {
        if self.removes {
            return amount;
        }
        Amount::NONE
    }

    // How many of `k` are added, where they are written elsewhere: none where they are removed here.
    pub fn left(self, k: usize) -> usize
        ensures { result ≡ cond self.removes 0 k }
    {
        if self.removes { 0 } else { k }
    }

    // How much of an amount is added in the same way.
    pub fn amount_left(self, amount: Amount) -> Amount
        ensures { result ≡ record { parts = cond self.removes 0 amount.parts; bytes = cond self.removes 0 amount.bytes; chars = cond self.removes 0 amount.chars } }
    {
        Amount {
            parts: self.left(amount.parts),
            bytes: self.left(amount.bytes),
            chars: self.left(amount.chars),
        }
    }
}

// H, how much of the inputs is read, the next instruction, the last number of a record, and the totals.
#[derive(Clone, Copy, Debug, Default, PartialEq, Eq)]
pub struct Scalars {
    pub plus: bool,
    pub places: [usize; 2],
    pub next: usize,
    pub last: usize,
    pub components: usize,
    pub characters: usize,
    pub records: usize,
}

impl Scalars {
    // The scalars of a row, as they lie at rest.
    pub fn from_row(row: &[usize; StatePlaces::SCALARS_COUNT]) -> Scalars
        requires { get_or row.now plus_scalar 0 ≤ 1 }
        ensures { row_of result ≡ row.now }
    {
        Scalars {
            plus: row[StatePlaces::PLUS_SCALAR] == 1,
            places: [
                row[StatePlaces::FIRST_PLACE],
                row[StatePlaces::SECOND_PLACE],
            ],
            next: row[StatePlaces::NEXT_SCALAR],
            last: row[StatePlaces::LAST_SCALAR],
            components: row[StatePlaces::COMPONENTS_SCALAR],
            characters: row[StatePlaces::CHARACTERS_SCALAR],
            records: row[StatePlaces::RECORDS_SCALAR],
        }
    }

    // The row that they lie in at rest.
    pub fn row(&self) -> [usize; StatePlaces::SCALARS_COUNT]
        ensures { result ≡ row_of self.now }
    {
        [
            usize::from(self.plus),
            self.places[0],
            self.places[1],
            self.next,
            self.last,
            self.components,
            self.characters,
            self.records,
        ]
    }

    // Adds to the totals of components and characters.
    #[tactic(auto, unfolding(crate::specs::Blocks::totalled))]
    pub fn raise(&mut self, amount: Amount)
        requires { Raisable (row_of self.old) amount.parts amount.chars }
        ensures { row_of self.new ≡ totalled (get_or (row_of self.old) components_scalar 0 + amount.parts) (get_or (row_of self.old) characters_scalar 0 + amount.chars) (row_of self.old) }
    {
        self.components += amount.parts;
        self.characters += amount.chars;
    }

    // Takes from the totals of components and characters.
    #[tactic(auto, unfolding(crate::specs::Blocks::totalled))]
    pub fn lower(&mut self, amount: Amount)
        requires { Lowerable (row_of self.old) amount.parts amount.chars }
        ensures { row_of self.new ≡ totalled (get_or (row_of self.old) components_scalar 0 - amount.parts) (get_or (row_of self.old) characters_scalar 0 - amount.chars) (row_of self.old) }
    {
        self.components -= amount.parts;
        self.characters -= amount.chars;
    }
}

// The state at work: its strings and its scalars.
#[derive(Drop)]
pub struct Working {
    pub strings: Strings,
    pub scalars: Scalars,
}

impl Model for Working {
    ghost use Rattle.store.specs.Below.LanguageValues.{State};
    ghost use Rattle.store.specs.Below.LayoutMemory.{state_by};
    ghost use Rattle.state.specs.Working.{LiesSo, row_of};

    ghost Value = { State };

    ghost view = { λ w. state_by w.strings (row_of w.scalars) };

    ghost invariant = { λ w. LiesSo w.strings (row_of w.scalars) };
}

// Puts bytes behind string `i` or before it. A bool chooses the end, and there are no two functions: what is promised is said over it, `pushed : Bool -> ..`,
// as `writing at_end` is for `write_parts`.
#[tactic(auto, unfolding(crate::specs::Blocks::pushed))]
fn push(strings: &mut Strings, i: usize, at_end: bool, bytes: &[u8])
    requires { Pushable strings.old i (length bytes.now) }
    ensures { strings.new ≡ pushed at_end i bytes.now strings.old }
{
    if at_end {
        strings.push_back(i, bytes);
    } else {
        strings.push_front(i, bytes);
    }
}

impl Working {
    // What is held is a state within its bounds: for a caller that promises so of a state of which it reads nothing.
    #[inline]
    pub fn stands(&self)
        ensures { Stands self.now }
    {
        let _ = &self.scalars;
    }

    // How many components are held.
    pub fn components(&self) -> usize
        ensures { Told self.now components_scalar result }
    {
        self.scalars.components
    }

    // How many characters are held.
    pub fn characters(&self) -> usize
        ensures { Told self.now characters_scalar result }
    {
        self.scalars.characters
    }

    // How many records are held.
    pub fn records(&self) -> usize
        ensures { Told self.now records_scalar result }
    {
        self.scalars.records
    }

    // The instruction that comes next.
    pub fn next_instruction(&self) -> usize
        ensures { Told self.now next_scalar result }
    {
        self.scalars.next
    }

    // The last address that was given.
    pub fn last(&self) -> usize
        ensures { Told self.now last_scalar result }
    {
        self.scalars.last
    }

    // The bytes of expression `i`.
    pub fn expr_bytes(&self, i: usize) -> &[u8]
        requires { i < limit.expressions }
        ensures { ExprLent self.now i result.now }
    {
        self.strings.string_of(i)
    }

    // Takes the first components of expression `i` away, which are so much.
    pub fn drop_parts(&mut self, i: usize, amount: Amount)
        requires { PartsDroppable self.old i amount.parts amount.bytes amount.chars }
        ensures { HoldsState self.new (on_store (past (nth (reading true) i) amount.parts) self.old) }
    {
        self.strings.drop_front(i, amount.bytes);
        self.scalars.lower(amount);
    }

    // Reads past the first components of an expression, which are so much: removes them, or leaves all as it is.
    pub fn past_parts(&mut self, source: Source, amount: Amount)
        requires { PartsDroppable self.old source.i amount.parts amount.bytes amount.chars }
        ensures { HoldsState self.new (on_store (past (nth (reading source.removes) source.i) amount.parts) self.old) }
    {
        self.stands();
        if source.removes {
            self.drop_parts(source.i, amount);
        }
    }

    // Writes the components in `new`, which are so much and already turned round where they are to be, at the end of an expression or in front.
    pub fn write_parts(&mut self, target: Target, new: &[u8], amount: Amount)
        requires { PartsWritable self.old target.j new.now amount.parts amount.chars }
        ensures { HoldsState self.new (on_store (into (nth (writing target.at_end) target.j) (components_in new.now)) self.old) }
    {
        push(&mut self.strings, target.j, target.at_end, new);
        self.scalars.raise(amount);
    }

    // Turns H minus, unless the test was reached.
    pub fn minus_unless(&mut self, reached: bool)
        ensures { HoldsState self.new (on_store (minus_unless reached) self.old) }
    {
        if !reached {
            self.scalars.plus = false;
        }
    }

    // Whether H is plus.
    pub fn is_plus(&self) -> bool
        ensures { result ≡ self.now.store.plus }
    {
        self.scalars.plus
    }

    // How many characters of input `i` are read.
    pub fn place(&self, i: usize) -> usize
        requires { i < limit.inputs }
        ensures { ReadTo self.now i result }
    {
        self.scalars.places[i]
    }

    // The length of output `i`.
    pub fn output_len(&self, i: usize) -> usize
        requires { i < limit.outputs }
        ensures { OutputLong self.now i result }
    {
        self.strings.len_of(StatePlaces::FIRST_OUTPUT + i)
    }

    // Exchanges the expressions `i` and `j`.
    pub fn exchange_exprs(&mut self, hold: &mut [u8], i: usize, j: usize)
        requires first { i < limit.expressions }
        requires second { j < limit.expressions }
        requires room { row ≤ length hold.old }
        ensures { HoldsState self.new (on_store (exprs_exchanged i j) self.old) }
    {
        self.strings.exchange(hold, i, j);
    }

    // Writes characters at the end of output `i`.
    pub fn print(&mut self, i: usize, chars: &[u8])
        requires { Printable self.old i (length chars.now) }
        ensures { HoldsState self.new (on_store (printed (nth Q i) chars.now) self.old) }
    {
        self.strings.push_back(StatePlaces::FIRST_OUTPUT + i, chars);
    }

    // Sets H.
    pub fn set_plus(&mut self, plus: bool)
        ensures { HoldsState self.new (on_store (with_plus plus) self.old) }
    {
        self.scalars.plus = plus;
    }

    // Reads past `k` characters of input `i`.
    pub fn read_past(&mut self, i: usize, k: usize)
        requires { Readable self.old i k }
        ensures { HoldsState self.new (on_store (past (nth I i) k) self.old) }
    {
        self.scalars.places[i] += k;
    }
}
