// A table and two inputs: as a call is lent them, and as what is read and left as it is.
#![tactic(auto)]

ghost use Rattle.std.specs.Prelude.{◌≡◌};
ghost use Rattle.tasks.specs.Inputs.{input_at};

use table::Table;

// What a call is lent beside a state, before anything is known of it.
#[derive(Clone, Copy, Debug, PartialEq, Eq)]
pub struct Lent<'a> {
    pub table: &'a [u32],
    pub first: &'a [u8],
    pub second: &'a [u8],
}

// What an instruction reads and leaves as it is: the table and both inputs.
#[derive(Clone, Copy, Debug, PartialEq, Eq)]
pub struct Task<'a> {
    pub table: Table<'a>,
    pub first: &'a [u8],
    pub second: &'a [u8],
}

impl<'a> Task<'a> {
    // Input `i`.
    pub fn input(self, i: usize) -> &'a [u8]
        ensures { result.now ≡ input_at self.entry.first.now self.entry.second.now i }
    {
        if i == 0 { self.first } else { self.second }
    }
}

// Of `table`, passed on to the crates above.
pub mod from_table {
    pub use table::Table;
}
