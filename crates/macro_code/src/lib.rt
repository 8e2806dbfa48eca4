// The list of macros and the section of a text, in cells of two numbers each.
#![tactic(auto)]

ghost use Rattle.std.specs.Prelude.{◌≡◌, ◌+◌, ◌≤◌, ◌<◌, take, drop};
ghost use Rattle.macro_code.specs.Bounds.{near, far, widest};
ghost use Rattle.macro_code.specs.Changes.{StartsAt};
ghost use Rattle.macro_code.specs.Code.{high, low, paired, bytes_at, argument_cell, size_at};
ghost use Rattle.macro_code.specs.Kinds.{GivenAt, ChangeAt, parameter_of};
ghost use Rattle.macro_code.specs.Places.{half, all_places};

mod changes;
mod faults;

pub use changes::Changes;
pub use faults::Faults;

// "From level 1 to 16 at most".
pub const LEVELS: usize = 16;

// What a name or an argument is: as typed; or a parameter, by its number; or what is typed joined with a parameter.
#[derive(Clone, Copy, Debug, PartialEq, Eq)]
pub enum Given {
    Typed,
    Parameter(usize),
    Joined(usize),
}

impl Given {
    // The number of the parameter that it names, or is joined with.
    pub fn parameter(self) -> Option<usize>
        ensures { result ≡ parameter_of self }
    {
        match self {
            Given::Typed => None,
            Given::Parameter(k) | Given::Joined(k) => Some(k),
        }
    }
}

// What a change is: the value of a parameter, by its number; or a call with so many arguments; or nothing, where a call is ill formed.
#[derive(Clone, Copy, Debug, PartialEq, Eq)]
pub enum Change {
    Value(usize),
    Call(usize),
    Nothing,
}

// The cells are lent memory, so a value of this type holds nothing, and kinds are numbers there; its constants are places of cells, as in specs/Places.antt.
// The constants stand in a type: a use reads `CodePlaces::NAME`, and who passes the type on passes all; a module would read no plainer.
#[derive(Clone, Copy, Debug, PartialEq, Eq)]
pub struct CodePlaces {}

impl CodePlaces {
    pub const HALF: u32 = 65536;

    pub const SPAN: usize = 1;

    pub const COUNTS: usize = 2;

    pub const PARAMETERS: usize = 3;

    pub const KIND: usize = 1;

    pub const SMALL_SIZE: usize = 2;

    pub const NAME: usize = 2;

    pub const ARGUMENTS: usize = 4;

    pub const GIVEN_SIZE: usize = 2;

    pub const VALUE: usize = 0;

    pub const CALL: usize = 1;

    pub const NOTHING: usize = 2;

    pub const TYPED: usize = 0;

    pub const PARAMETER: usize = 1;

    pub const JOINED: usize = 2;

    pub const CELLS: usize = 65540;

    pub const MACROS: usize = 10923;
}

// The cell of two numbers; a type for the two would be taken apart at each use.
pub fn pair(a: usize, b: usize) -> u32
    requires { (a < half) × (b < half) }
    ensures { result ≡ paired a b }
{
    (a as u32) * CodePlaces::HALF + (b as u32)
}

// The cell of an argument of a call.
pub fn argument_cell(call: usize, k: usize) -> usize
    requires { (call < far) × (k < half) }
    ensures { (result ≡ argument_cell call k) × (result ≤ call + widest) }
{
    call + CodePlaces::ARGUMENTS + CodePlaces::GIVEN_SIZE * k
}

// The bytes of a text from a place on, so many, or as many as there are.
pub fn part(text: &[u8], at: usize, n: usize) -> &[u8]
    requires { (at < half) × (n < half) }
    ensures { result.now ≡ take n (drop at text.now) }
{
    let from = at.min(text.len());
    let to = (at + n).min(text.len());
    &text[from..to]
}

// A text, and the cells of its list of macros and its section.
#[derive(Clone, Copy, Debug, PartialEq, Eq)]
pub struct Coded<'a> {
    pub text: &'a [u8],
    pub code: &'a [u32],
}

impl<'a> Coded<'a> {
    // The two numbers of the cell `i`, by a cast, since there is no From<u32> for usize; both are 0 past the end.
    pub fn high(&self, i: usize) -> usize
        ensures { (result ≡ high self.now.code.now i) × (result < half) }
    {
        (self.code.get(i).copied().unwrap_or(0) / CodePlaces::HALF) as usize
    }

    pub fn low(&self, i: usize) -> usize
        ensures { (result ≡ low self.now.code.now i) × (result < half) }
    {
        (self.code.get(i).copied().unwrap_or(0) % CodePlaces::HALF) as usize
    }

    // The bytes of the cell `i`.
    #[tactic(auto, unfolding(crate::specs::Code::bytes_at))]
    pub fn bytes_at(&self, i: usize) -> &'a [u8]
        ensures { result.now ≡ bytes_at self.now.text.now self.now.code.now i }
    {
        part(self.text, self.high(i), self.low(i))
    }

    // The name or the argument at `g`.
    pub fn given_at(&self, g: usize) -> Given
        requires { g < far + far }
        ensures { GivenAt self.now.code.now g result }
    {
        let k = self.low(g + CodePlaces::KIND);
        match self.high(g + CodePlaces::KIND) {
            CodePlaces::TYPED => Given::Typed,
            CodePlaces::PARAMETER => Given::Parameter(k),
            _ => Given::Joined(k),
        }
    }

    // The change at `i`.
    pub fn change_at(&self, i: usize) -> Change
        requires { i < far }
        ensures { ChangeAt self.now.code.now i result }
    {
        let k = self.low(i + CodePlaces::KIND);
        match self.high(i + CodePlaces::KIND) {
            CodePlaces::VALUE => Change::Value(k),
            CodePlaces::CALL => Change::Call(k),
            _ => Change::Nothing,
        }
    }

    // How many cells a change takes.
    #[tactic(auto, unfolding(crate::specs::Code::size_at))]
    pub(crate) fn change_size(&self, i: usize) -> usize
        requires { i < far }
        ensures { (result ≡ size_at self.now.code.now i) × (result ≤ widest) }
    {
        match self.change_at(i) {
            Change::Call(n) => argument_cell(0, n),
            Change::Value(_) | Change::Nothing => CodePlaces::SMALL_SIZE,
        }
    }

    // The changes of a macro or of the section, by its cell.
    pub fn changes(&self, q: usize) -> Changes<'a>
        requires { q < near }
        ensures { StartsAt self.now.code.now q result }
    {
        Changes {
            coded: *self,
            cell: q + CodePlaces::PARAMETERS + self.high(q + CodePlaces::COUNTS),
            left: self.low(q + CodePlaces::COUNTS),
        }
    }
}

// The constants are the numbers of the specification.
pub fn places() -> [usize; 17]
    ensures { result ≡ all_places }
{
    [
        CodePlaces::HALF as usize,
        CodePlaces::SPAN,
        CodePlaces::COUNTS,
        CodePlaces::PARAMETERS,
        CodePlaces::KIND,
        CodePlaces::SMALL_SIZE,
        CodePlaces::NAME,
        CodePlaces::ARGUMENTS,
        CodePlaces::GIVEN_SIZE,
        CodePlaces::VALUE,
        CodePlaces::CALL,
        CodePlaces::NOTHING,
        CodePlaces::TYPED,
        CodePlaces::PARAMETER,
        CodePlaces::JOINED,
        CodePlaces::CELLS,
        CodePlaces::MACROS,
    ]
}
