// Lines of frames: a frame written as a line; question 68, of one line and of a text.
#![tactic(auto)]

ghost use Rattle.std.specs.Prelude.{◌≡◌, [], ◌∷◌, ◌++◌, ◌+◌, ◌*◌, ◌-◌, ◌/◌, ◌%◌, ◌≤◌, ◌<◌, length};
ghost use Rattle.cells.specs.Cells.{pasted, Number};
ghost use Rattle.hexadecimal.specs.Below.Hexadecimal.{two_digits, hexadecimal};
ghost use Rattle.hexadecimal.specs.Below.Frames.{framed, frame_line, sound_line, sound_text};
ghost use Rattle.state_lines.specs.Kinds.{kind_number};
ghost use Rattle.state_lines.specs.Lengths.{Measured, contents_length};
ghost use Rattle.state_lines.specs.Sums.{told_sum};
ghost use Rattle.state_lines.specs.Writing.{FrontRoom, FrameRoom, EndRoom, LengthsRoom, FileRoom};
ghost use Rattle.hexadecimal.specs.Below.Saved.{file_contents};

// The kinds of frames, by the numbers that frames have for them.
#[derive(Clone, Copy, Debug, PartialEq, Eq)]
pub enum Kind {
    Head = 1,
    Expression = 2,
    File = 3,
    Output = 4,
    Stack = 5,
}

impl From<Kind> for u8 {
    ghost use Rattle.std.specs.Prelude.{◌≡◌};
    ghost use Rattle.state_lines.specs.Kinds.{kind_number};

    ghost from_gives = { λ k n. n ≡ kind_number k };

    fn from(k: Kind) -> u8 {
        k as u8
    }
}

// Which frame: the number of its kind, and its index. A state has frames of the five kinds alone, but a line is written for any byte.
#[derive(Clone, Copy, Debug, PartialEq, Eq)]
pub struct Slot {
    pub kind: u8,
    pub index: usize,
}

impl Slot {
    // Those of which a state has one.
    pub const HEAD: Slot = Slot {
        kind: Kind::Head as u8,
        index: 0,
    };

    pub const STACK: Slot = Slot {
        kind: Kind::Stack as u8,
        index: 0,
    };

    // A frame of one of the five kinds.
    pub fn of(kind: Kind, index: usize) -> Slot
        ensures kind { result.kind ≡ kind_number kind }
        ensures index { result.index ≡ index }
    {
        Slot {
            kind: u8::from(kind),
            index,
        }
    }
}

// How many digits stand before a frame's contents.
pub const FRONT: usize = 8;

// How many stand before the records of a file: the length of those before its pointer comes first.
const FILE_FRONT: usize = 12;

// How many bytes a frame has beside its contents: its kind, its index, two for their length, and the check.
const BESIDE: usize = 5;

// How many bytes a line takes with contents of `n` bytes.
pub fn line_length(n: usize) -> usize
    requires { n < 4294967296 }
    ensures { result ≡ 11 + 2 * n }
{
    2 * (BESIDE + n) + 1
}

// Writes a frame's first four bytes: its kind, its index, and the length `n` of its contents, high byte first. No `to_be_bytes`, here and below: the
// bytes are written and summed as a `usize`, which each would become again.
fn put_front(dst: &mut [u8], at: usize, slot: Slot, n: usize)
    requires { FrontRoom (length dst.old) at slot.index n }
    ensures { dst.new ≡ pasted dst.old at (hexadecimal (slot.kind ∷ slot.index ∷ n / 256 ∷ n % 256 ∷ [])) }
{
    hexadecimal::put_byte(dst, at, usize::from(slot.kind));
    hexadecimal::put_byte(dst, at + 2, slot.index);
    hexadecimal::put_byte(dst, at + 4, n / 256);
    hexadecimal::put_byte(dst, at + 6, n % 256);
}

// Writes the byte that makes the sum a multiple of 256, and LF.
fn put_end(dst: &mut [u8], at: usize, sum: usize)
    requires { EndRoom (length dst.old) at sum }
    ensures { dst.new ≡ pasted dst.old at (two_digits ((256 - sum) % 256) ++ (10 ∷ [])) }
{
    hexadecimal::put_byte(dst, at, (256 - sum) % 256);
    dst[at + 2] = b'\n';
}

// Writes a frame as a line of 11 bytes and two for each of its contents.
pub fn put_frame(dst: &mut [u8], at: usize, slot: Slot, contents: &[u8])
    requires { FrameRoom (length dst.old) at slot.index (length contents.now) }
    ensures { dst.new ≡ pasted dst.old at (frame_line (framed slot.kind slot.index contents.now)) }
{
    let n = contents.len();
    let front = (usize::from(slot.kind) + (slot.index + (n / 256 + n % 256))) % 256;
    let sum = hexadecimal::sum_from(front, contents);
    put_front(dst, at, slot, n);
    hexadecimal::put_bytes(dst, at + FRONT, contents);
    put_end(dst, at + (FRONT + 2 * n), sum);
}

// Writes the first six bytes of a file's frame: the four, with the length `n`, and the length `k` of the records before the pointer.
fn put_lengths(dst: &mut [u8], at: usize, slot: Slot, n: usize, k: usize)
    requires { LengthsRoom (length dst.old) at slot.index n k }
    ensures { dst.new ≡ pasted dst.old at (hexadecimal (slot.kind ∷ slot.index ∷ n / 256 ∷ n % 256 ∷ k % 256 ∷ k / 256 ∷ [])) }
{
    put_front(dst, at, slot, n);
    hexadecimal::put_byte(dst, at + FRONT, k % 256);
    hexadecimal::put_byte(dst, at + (FRONT + 2), k / 256);
}

// Writes the frame of a file with records as a line: those before its pointer and those after it.
pub fn put_file(dst: &mut [u8], at: usize, index: usize, before: &[u8], after: &[u8])
    requires { FileRoom (length dst.old) at index (length before.now) (length after.now) }
    ensures { dst.new ≡ pasted dst.old at (frame_line (framed 3 index (file_contents before.now after.now))) }
{
    let k = before.len();
    let n = 2 + (k + after.len());
    let slot = Slot::of(Kind::File, index);
    let front = (usize::from(slot.kind) + (index + (n / 256 + (n % 256 + (k % 256 + k / 256)))))
        % 256;
    let sum = hexadecimal::sum_from(front, before);
    let all = hexadecimal::sum_from(sum, after);
    put_lengths(dst, at, slot, n, k);
    hexadecimal::put_bytes(dst, at + FILE_FRONT, before);
    hexadecimal::put_bytes(dst, at + (FILE_FRONT + 2 * k), after);
    put_end(dst, at + (FRONT + 2 * n), all);
}

// The sum modulo 256 of the first `n` bytes in hexadecimal, where these are all digits.
fn sum_digits(line: &[u8], n: usize) -> Option<usize>
    requires { 2 * n ≤ length line.now }
    ensures { result ≡ told_sum line.now n }
{
    let mut s = 0;
    for j in 0..n {
        let b = hexadecimal::byte_at(line, 2 * j)?;
        s = (s + usize::from(b)) % 256;
    }
    Some(s)
}

// How long a frame's contents are, by its line: the third and the fourth byte tell it.
pub fn contents_length(line: &[u8]) -> usize
    requires { Measured line.now }
    ensures { Number (contents_length line.now) 65536 result }
{
    let high = hexadecimal::byte_at(line, 4).unwrap();
    let low = hexadecimal::byte_at(line, 6).unwrap();
    usize::from(u16::from_be_bytes([high, low]))
}

// Whether the line, with its LF, is hexadecimal with its length and sum right.
fn is_sound(line: &[u8]) -> bool
    ensures { result ≡ sound_line line.now }
{
    let n = line.len();
    let k = n / 2;
    if n % 2 == 0 {
        return false;
    }
    if line[2 * k] != b'\n' {
        return false;
    }
    if k < BESIDE {
        return false;
    }
    let Some(sum) = sum_digits(line, k) else {
        return false;
    };
    if sum != 0 {
        return false;
    }
    k == BESIDE + contents_length(line)
}

// Question 68: whether every line is hexadecimal with its length and sum right. No `split_inclusive`: of it std says nothing in the words of lines.
pub fn is_sound_text(text: &[u8]) -> bool
    ensures { result ≡ sound_text text.now }
{
    let mut rest = text;
    while !rest.is_empty() {
        let (line, others) = rest.split_at(text_lines::line_end(rest, 0));
        if !is_sound(line) {
            return false;
        }
        rest = others;
    }
    true
}
