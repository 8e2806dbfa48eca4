// A list of macros that was read.
#![tactic(auto)]

ghost use Rattle.std.specs.Prelude.{◌≡◌, get_or, length};
ghost use Rattle.macro_expansion.specs.Known.{Known};

use macro_calls::Hinted;

// A list of macros that was read, with the hints for calls; and of each macro its two heights.
// Two rows of bytes, and not one of structs: they are filled while others are read (`Rows` of macro_preparing).
#[derive(Clone, Copy, Debug, PartialEq, Eq)]
pub struct Macros<'a> {
    pub hinted: Hinted<'a>,
    pub quiet: &'a [u8],
    pub loose: &'a [u8],
    ghost known: { Known hinted.listed.coded.text.now hinted.listed.coded.code.now hinted.listed.firsts.now (length hinted.listed.firsts.now) quiet.now loose.now hinted.singles.now },
}

impl<'a> Macros<'a> {
    pub(crate) fn quiet_height(&self, k: usize) -> usize
        ensures { result ≡ get_or self.now.quiet.now k 0 }
    {
        usize::from(self.quiet.get(k).copied().unwrap_or(0))
    }

    pub(crate) fn loose_height(&self, k: usize) -> usize
        ensures { result ≡ get_or self.now.loose.now k 0 }
    {
        usize::from(self.loose.get(k).copied().unwrap_or(0))
    }
}
