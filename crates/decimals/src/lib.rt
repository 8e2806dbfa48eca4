// Numbers as decimal words.
#![tactic(auto)]

ghost use Rattle.std.specs.Prelude.{◌<◌, length};
ghost use Rattle.language.specs.Values.{decimal};
ghost use Rattle.layout.specs.Cells.{uncode};
ghost use Rattle.cells.specs.Cells.{Writable};
ghost use Rattle.components.specs.Parts.{Written};
ghost use Rattle.decimals.specs.Numerals.{Width, DigitsRoom, DigitsPut};

use language::Machine;

// How many characters the longest has: a minus and seven digits.
pub const LONGEST: usize = 8;

// How many digits a number of at most seven has.
fn width(n: usize) -> usize
    requires { n < 10000000 }
    ensures { Width n result }
{
    match n.checked_ilog10() {
        Some(k) => 1 + k as usize,
        None => 1,
    }
}

// Writes the digits of a number from index `at` on, and tells the index behind them.
fn put_digits(out: &mut [u8], at: usize, n: usize) -> usize
    requires { DigitsRoom (length out.old) at n }
    ensures { DigitsPut out.old at n out.new result }
{
    let e = at + width(n);
    let mut m = n;
    for i in (at..e).rev() {
        out[i] = b'0' + (m % 10) as u8;
        m /= 10;
    }
    e
}

// Writes the decimal word of the number of this code at the front of `out`, and tells its length.
pub fn put_decimal(out: &mut [u8], code: usize) -> usize
    requires { Writable 0 8 (length out.old) code 16777216 }
    ensures { Written out.old (decimal (uncode code)) out.new result }
{
    if code < Machine::SIZE {
        out[0] = b'-';
        return put_digits(out, 1, Machine::SIZE - code);
    }
    put_digits(out, 0, code - Machine::SIZE)
}
