// Hexadecimal in capitals, two digits a byte: bytes written and read, and their sum modulo 256.
// Not by the crate `hex`, which writes small letters into a row, and reads them too.
#![tactic(auto)]

ghost use Rattle.std.specs.Prelude.{◌≡◌, ◌+◌, ◌*◌, ◌%◌, ◌≤◌, ◌<◌, length, get_or};
ghost use Rattle.cells.specs.Cells.{pasted, Number, Writable};
ghost use Rattle.state_frames.specs.Hexadecimal.{digit, two_digits, hexadecimal};
ghost use Rattle.state_frames.specs.Frames.{sum};
ghost use Rattle.hexadecimal.specs.Digits.{told_digit, told_byte, Gettable, Got};

// The digit of a number below 16.
fn digit_of(n: usize) -> u8
    requires { n < 16 }
    ensures { result ≡ digit n }
{
    if n < 10 {
        return b'0' + n as u8;
    }
    b'A' - 10 + n as u8
}

// The number of the digit `b`.
fn value_of(b: u8) -> Option<u8>
    ensures { result ≡ told_digit b }
{
    match b {
        b'0'..=b'9' => Some(b - b'0'),
        b'A'..=b'F' => Some(b - b'A' + 10),
        _ => None,
    }
}

// Writes the two digits of the byte `b` into the cells from `at` on.
pub fn put_byte(dst: &mut [u8], at: usize, b: usize)
    requires { Writable at 2 (length dst.old) b 256 }
    ensures { dst.new ≡ pasted dst.old at (two_digits b) }
{
    dst[at] = digit_of(b / 16);
    dst[at + 1] = digit_of(b % 16);
}

// Writes the bytes of `src` in hexadecimal into the cells from `at` on.
pub fn put_bytes(dst: &mut [u8], at: usize, src: &[u8])
    requires { at + 2 * length src.now ≤ length dst.old }
    ensures { dst.new ≡ pasted dst.old at (hexadecimal src.now) }
{
    for (j, b) in src.iter().enumerate() {
        put_byte(dst, at + 2 * j, usize::from(*b));
    }
}

// The byte of the two digits at `at`, where both are digits.
pub fn byte_at(text: &[u8], at: usize) -> Option<u8>
    requires { at + 2 ≤ length text.now }
    ensures { result ≡ told_byte (get_or text.now at 0) (get_or text.now (1 + at) 0) }
{
    let high = value_of(text[at])?;
    let low = value_of(text[1 + at])?;
    Some(16 * high + low)
}

// Copies the bytes of the digits `src` into the cells from `at` on, if they are all digits.
pub fn get_bytes(dst: &mut [u8], at: usize, src: &[u8]) -> Option<()>
    requires { Gettable (length dst.old) at (length src.now) }
    ensures { Got dst.old at src.now result dst.new }
{
    for j in 0..src.len() / 2 {
        let b = byte_at(src, 2 * j)?;
        dst[at + j] = b;
    }
    Some(())
}

// `s` and the bytes of `src` added, modulo 256.
pub fn sum_from(s: usize, src: &[u8]) -> usize
    requires { s < 256 }
    ensures { Number ((s + sum src.now) % 256) 256 result }
{
    let mut t = s;
    for b in src {
        t = (t + usize::from(*b)) % 256;
    }
    t
}
