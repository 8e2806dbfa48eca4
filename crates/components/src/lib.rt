// Components in bytes, read and made, over parts of strings.
#![tactic(auto)]

ghost use Rattle.std.specs.Prelude.{◌≡◌, ◌∷◌, cond, map, reverse, ◌+◌, ◌*◌, ◌≤◌, length};
ghost use Rattle.cells.specs.Below.LanguageValues.{value, kind, link};
ghost use Rattle.cells.specs.Below.LanguageValues.Component.{word, number, address};
ghost use Rattle.cells.specs.Below.MachineArguments.{char};
ghost use Rattle.cells.specs.Below.LayoutBounds.{WholeComponents};
ghost use Rattle.cells.specs.Below.LayoutCells.{three, code, uncode};
ghost use Rattle.cells.specs.Below.Limits as limit;
ghost use Rattle.cells.specs.Below.Components.{component_bytes, components_bytes, component_size, component_in, components_in};
ghost use Rattle.cells.specs.Cells.{pasted, Number, Writable};
ghost use Rattle.components.specs.Parts.{first_size, kind_number, spelled, SplitFirst, Leading, LeadingKind, LentChars, AmountOfFirst, WordRoom, CopyRoom, JoinRoom, Written};

use cells::from_language::Machine;

// The kinds of components. A number and an address have theirs in their second cell.
#[derive(Clone, Copy, Debug, PartialEq, Eq)]
pub enum Kind {
    Word = 0,
    Number = 1,
    Address = 2,
}

// How much components are: how many, their bytes and their characters.
#[derive(Clone, Copy, Debug, PartialEq, Eq)]
pub struct Amount {
    pub parts: usize,
    pub bytes: usize,
    pub chars: usize,
}

impl Amount {
    // Of nothing.
    pub const NONE: Amount = Amount {
        parts: 0,
        bytes: 0,
        chars: 0,
    };

    // Of one number or address.
    pub const SHORT: Amount = Amount {
        parts: 1,
        bytes: 5,
        chars: 0,
    };

    // Of a word of `n` characters.
    pub fn word(n: usize) -> Amount
        requires { n ≤ limit.word }
        ensures { result ≡ record { parts = 1; bytes = 1 + n; chars = n } }
    {
        Amount {
            parts: 1,
            bytes: 1 + n,
            chars: n,
        }
    }

    // Of the component in front.
    pub fn of_first(x: &[u8]) -> Amount
        requires { Leading x.now }
        ensures { AmountOfFirst x.now result }
    {
        Amount {
            parts: 1,
            bytes: first_size(x),
            chars: chars_of(x).len(),
        }
    }
}

// The cells of a record beside its components: three of its address, the length of its components, and behind them that length again.
// The constants stand in a type, as those of `layout::StatePlaces`.
#[derive(Clone, Copy)]
pub struct RecordPlaces {}

impl RecordPlaces {
    // Where the length stands, and how many cells it has.
    pub const LENGTH: usize = 3;

    pub const LENGTH_SIZE: usize = 2;

    // Where the components begin.
    pub const CONTENTS: usize = 5;

    // How many cells a record takes beside its components.
    pub const FRAME: usize = 7;
}

// The code of 0: a number travels as its value with this added, which is the greatest size of one.
pub const ZERO: usize = Machine::SIZE;

// How many cells a component takes, by its first cell.
pub fn size_by(b: u8) -> usize
    ensures { Number (component_size b) 257 result }
{
    if b == 0 {
        return 5;
    }
    1 + usize::from(b)
}

// How many cells the first component of a sequence takes, 0 where there is none.
// 0 and no Option: what is asked is where the first component ends, and of nothing that is 0.
pub fn first_size(s: &[u8]) -> usize
    ensures { Number (first_size s.now) 257 result }
{
    s.first().map_or(0, |b| size_by(*b))
}

// The first component of a sequence and what is behind it; none where there is none.
// A function and no iterator: that would be a struct whose invariant says what is asked here, and its loops would ask for a proof of what comes out.
pub fn split_first(s: &[u8]) -> Option<(&[u8], &[u8])>
    requires { WholeComponents s.now }
    ensures { SplitFirst s.now result }
{
    if s.is_empty() {
        return None;
    }
    Some(s.split_at(size_by(s[0])))
}

// The kind of the component in front.
pub fn kind_of(x: &[u8]) -> Kind
    requires { Leading x.now }
    ensures { kind_number result ≡ kind (component_in x.now) }
{
    if x[0] != 0 {
        return Kind::Word;
    }
    if x[1] == Kind::Number as u8 {
        return Kind::Number;
    }
    Kind::Address
}

// The value of the number in front, with 8,388,607 added.
// Not one with `address_of`: each asks for its own kind of component and promises its own value.
pub fn number_of(x: &[u8]) -> usize
    requires { LeadingKind 1 x.now }
    ensures { Number (code (value (component_in x.now))) 16777216 result }
{
    cells::three_at(x, 2)
}

// The address in front.
pub fn address_of(x: &[u8]) -> usize
    requires { LeadingKind 2 x.now }
    ensures { Number (link (component_in x.now)) 16777216 result }
{
    cells::three_at(x, 2)
}

// The characters of the word in front; none where it is no word.
pub fn chars_of(x: &[u8]) -> &[u8]
    requires { Leading x.now }
    ensures { LentChars (component_in x.now) result.now }
{
    &x[1..1 + usize::from(x[0])]
}

// Writes a word of these characters from index `at` on, as `put_short` does of a number or an address.
// All callers write at the front; the promise is for any place.
pub fn put_word(out: &mut [u8], at: usize, w: &[u8])
    requires { WordRoom (length out.old) at (length w.now) }
    ensures { out.new ≡ pasted out.old at (component_bytes (word w.now)) }
{
    out[at] = w.len() as u8;
    cells::put(out, at + 1, w);
}

// Writes 0, the kind and a number of three cells from index `at` on.
fn put_short(out: &mut [u8], at: usize, kind: Kind, n: usize)
    requires { Writable at 5 (length out.old) n 16777216 }
    ensures { out.new ≡ pasted out.old at (0 ∷ kind_number kind ∷ three n) }
{
    out[at] = 0;
    out[at + 1] = kind as u8;
    cells::put_three(out, at + 2, n);
}

// Writes the number of this code from index `at` on.
pub fn put_number(out: &mut [u8], at: usize, code: usize)
    requires { Writable at 5 (length out.old) code 16777216 }
    ensures { out.new ≡ pasted out.old at (component_bytes (number (uncode code))) }
{
    put_short(out, at, Kind::Number, code);
}

// Writes an address from index `at` on.
pub fn put_address(out: &mut [u8], at: usize, n: usize)
    requires { Writable at 5 (length out.old) n 16777216 }
    ensures { out.new ≡ pasted out.old at (component_bytes (address n)) }
{
    put_short(out, at, Kind::Address, n);
}

// Writes the components of `src` at the front of `out`, the last one first.
fn turn(out: &mut [u8], src: &[u8])
    requires { CopyRoom (length out.old) src.now }
    ensures { out.new ≡ pasted out.old 0 (components_bytes (reverse (components_in src.now))) }
{
    let mut left = src;
    while let Some((x, rest)) = split_first(left) {
        cells::put(out, rest.len(), x);
        left = rest;
    }
}

// Writes the components of `src` at the front of `out`, in their order or the last one first.
pub fn copy(out: &mut [u8], src: &[u8], reverses: bool)
    requires { CopyRoom (length out.old) src.now }
    ensures { out.new ≡ pasted out.old 0 (components_bytes (cond reverses (reverse (components_in src.now)) (components_in src.now))) }
{
    if reverses {
        turn(out, src);
        return;
    }
    cells::put(out, 0, src);
}

// Writes the characters of all words of `src` at the front of `out`, and tells how many they are.
pub fn join(out: &mut [u8], src: &[u8]) -> usize
    requires { JoinRoom (length out.old) src.now }
    ensures { Written out.old (spelled (components_in src.now)) out.new result }
{
    let mut n = 0;
    let mut left = src;
    while let Some((x, rest)) = split_first(left) {
        let w = chars_of(x);
        cells::put(out, n, w);
        n += w.len();
        left = rest;
    }
    n
}

// Writes a word for each character of `w` at the front of `out`, and tells how many cells they take.
pub fn split(out: &mut [u8], w: &[u8]) -> usize
    requires { 2 * length w.now ≤ length out.old }
    ensures { Written out.old (components_bytes (map char w.now)) out.new result }
{
    for (i, c) in w.iter().enumerate() {
        out[2 * i] = 1;
        out[2 * i + 1] = *c;
    }
    2 * w.len()
}
