// Words of decimal digits, as numbers.
#![tactic(auto)]

ghost use Rattle.std.specs.Prelude.{◌≡◌, ◌+◌, ◌*◌, ◌-◌, min};
ghost use Rattle.language.specs.Limits as limit;
ghost use Rattle.numerals.specs.Numerals.{measured, coded, reads, Growable};

use language::Machine;

// Why a word is no number of the machine: it is none, or one out of range.
#[derive(Clone, Copy, Debug, PartialEq, Eq)]
pub enum NoNumber {
    NotNumeral,
    OutOfRange,
}

// The first size out of range, at which sizes stop growing.
// No Err there: a later byte that is no digit tells another thing, so all are read.
const BEYOND: usize = Machine::SIZE + 1;

// A size with one more digit.
fn grown(n: usize, digit: u8) -> usize
    requires { Growable n digit }
    ensures { result ≡ min (n * 10 + (digit - 48)) (limit.size + 1) }
{
    (n * 10 + usize::from(digit - b'0')).min(BEYOND)
}

// The number that digits write, at most the first out of range; none where they are none or not all digits.
pub fn measure(s: &[u8]) -> Option<usize>
    ensures { result ≡ measured s.now }
{
    if s.is_empty() {
        return None;
    }
    let mut n = 0;
    for b in s {
        if !characters::is_digit(*b) {
            return None;
        }
        n = grown(n, *b);
    }
    Some(n)
}

// The code of a number, its value + 8,388,607, by its sign and its digits.
#[tactic(auto, unfolding(crate::specs::Numerals::coded))]
fn coded(negative: bool, digits: &[u8]) -> Result<u32, NoNumber>
    ensures { result ≡ coded negative (measured digits.now) }
{
    let size = measure(digits).ok_or(NoNumber::NotNumeral)?;
    if Machine::SIZE < size {
        return Err(NoNumber::OutOfRange);
    }
    if negative {
        return Ok((Machine::SIZE - size) as u32);
    }
    Ok((Machine::SIZE + size) as u32)
}

// The code of the number that a word writes: a sign or none, then digits.
pub fn read_decimal(w: &[u8]) -> Result<u32, NoNumber>
    ensures { result ≡ reads w.now }
{
    let (sign, digits) = w.split_first().ok_or(NoNumber::NotNumeral)?;
    if *sign == b'-' {
        return coded(true, digits);
    }
    if *sign == b'+' {
        return coded(false, digits);
    }
    coded(false, w)
}
