// Bytes written behind those that are written already, and what a name or an argument within nested calls stands for.
#![tactic(auto)]

ghost use Rattle.std.specs.Prelude.{◌≡◌, [], ◌≤◌, ◌<◌, ◌-◌, length, get_or, take, drop};
ghost use Rattle.macro_code.specs.Bounds.{near, far};
ghost use Rattle.macro_code.specs.Code.{given_in, arguments_in};
ghost use Rattle.macro_code.specs.Places.{half};
ghost use Rattle.macros.specs.Expansion.{just, filled_in};
ghost use Rattle.macro_values.specs.Values.{own, ArgumentOf, Above};
ghost use Rattle.macro_values.specs.Wrote.{size_of, none, with_faults, Wrote};

use macro_code::{CodePlaces, Coded, Faults, Given, argument_cell};

// What is written: how many bytes, none if there is no room for all, or if a call is too deep; and the faults of 64 and of 65 that are met.
// The row of bytes is lent beside it: of a struct with a `&mut` to the row, each function and each loop would have to say that it is still that row.
#[derive(Clone, Copy, Debug, PartialEq, Eq)]
pub struct Written {
    pub count: Option<usize>,
    pub faults: Faults,
}

impl Written {
    // Nothing is written yet.
    pub fn nothing() -> Written
        ensures { result ≡ none }
    {
        Written {
            count: Some(0),
            faults: Faults::NONE,
        }
    }

    // The same, where more is at fault.
    pub fn and_faults(self, more: Faults) -> Written
        ensures { result ≡ with_faults self more }
    {
        Written {
            faults: self.faults.and(more),
            ..self
        }
    }

    // Writes `bytes` behind what is written, if there is room.
    fn add(self, bytes: &[u8], out: &mut [u8]) -> Written
        requires { size_of self ≤ length out.old }
        ensures { Wrote (just bytes.now) self result out.old out.new }
    {
        let Some(at) = self.count else { return self };
        if bytes.len() > out.len() - at {
            return Written {
                count: None,
                ..self
            };
        }
        let end = at + bytes.len();
        out[at..end].copy_from_slice(bytes);
        Written {
            count: Some(end),
            ..self
        }
    }

    // Writes the bytes of a text from one place up to another.
    pub fn append(self, text: &[u8], from: usize, to: usize, out: &mut [u8]) -> Written
        requires { (from < half) × (to < half) × (size_of self ≤ length out.old) }
        ensures { Wrote (just (take (to - from) (drop from text.now))) self result out.old out.new }
    {
        self.add(macro_code::part(text, from, to.saturating_sub(from)), out)
    }
}

// The number at `k` in a row, and 0 past its end.
pub fn cell_at(row: &[u32], k: usize) -> usize
    ensures { (result ≡ get_or row.now k 0) × (result < near) }
{
    row.get(k).map_or(0, |x| *x as usize)
}

// A text with its cells, and the cells of nested calls, of which so many are around.
#[derive(Clone, Copy, Debug, PartialEq, Eq)]
pub struct Around<'a, 'b> {
    pub coded: Coded<'a>,
    pub calls: &'b [u32],
    pub depth: usize,
}

impl<'a, 'b> Around<'a, 'b> {
    // The bytes of a name or an argument as typed.
    #[tactic(auto, unfolding(crate::specs::Values::own))]
    fn own(&self, g: usize) -> &'a [u8]
        requires { g < far }
        ensures { result.now ≡ own self.now.coded.text.now self.now.coded.code.now g }
    {
        match self.coded.given_at(g) {
            Given::Parameter(_) => &self.coded.text[..0],
            Given::Typed | Given::Joined(_) => self.coded.bytes_at(g),
        }
    }

    // The argument number `k` of the last of `d` calls.
    fn argument_of(&self, d: usize, k: usize) -> Option<usize>
        requires { k < half }
        ensures { ArgumentOf self.now.coded.code.now self.now.calls.now d k result }
    {
        let call = cell_at(self.calls, d.checked_sub(1)?);
        (k < self.coded.low(call + CodePlaces::KIND)).then_some(argument_cell(call, k))
    }

    // The argument of the last of `d` calls that the parameter of a name or an argument stands for.
    fn above(&self, d: usize, g: usize) -> Option<usize>
        requires { g < far }
        ensures { Above self.now.coded.code.now self.now.calls.now d g result }
    {
        let k = self.coded.given_at(g).parameter()?;
        self.argument_of(d, k)
    }

    // Writes what a name or an argument stands for.
    pub fn write_given(&self, g: usize, out: &mut [u8], v: Written) -> Written
        requires { (g < far) × (size_of v ≤ length out.old) }
        ensures { Wrote (just (filled_in (arguments_in self.now.coded.text.now self.now.coded.code.now self.now.calls.now self.now.depth) (given_in self.now.coded.text.now self.now.coded.code.now g))) v result out.old out.new }
    {
        let mut w = v.add(self.own(g), out);
        let mut cell = g;
        let mut d = self.depth;
        while let Some(next) = self.above(d, cell) {
            w = w.add(self.own(next), out);
            cell = next;
            d -= 1;
        }
        w
    }

    // Writes what a parameter stands for.
    pub fn write_value(&self, k: usize, out: &mut [u8], v: Written) -> Written
        requires { (k < half) × (size_of v ≤ length out.old) }
        ensures { Wrote (just (get_or (arguments_in self.now.coded.text.now self.now.coded.code.now self.now.calls.now self.now.depth) k [])) v result out.old out.new }
    {
        let Some(g) = self.argument_of(self.depth, k) else {
            return v
        };
        let outer = Around {
            depth: self.depth - 1,
            ..*self
        };
        outer.write_given(g, out, v)
    }
}
