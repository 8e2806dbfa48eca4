// The program on standard input: where the text ends, and the lines that it prints, into lent memory: that cannot fail, as `write!` can.
#![tactic(auto)]

ghost use Rattle.std.specs.Prelude.{◌≡◌, ◌+◌, ◌≤◌, ◌<◌, length};
ghost use Rattle.console.specs.Console.{is_last, two_digits, field, refusal_line, answer_bytes, end_line};
ghost use Rattle.console.specs.Parts.{TextEnd, Put, Room, RefusalRoom, StopRoom, EndRoom, answer_of};

const KONP: [u8; 4] = *b"KONP";

// Whether a line is one "starting with KONP".
fn is_last(line: &[u8]) -> bool
    ensures { result ≡ is_last line.now }
{
    line.starts_with(&KONP)
}

// How many bytes of the input are the text: from line to line by `line_end`, whose promise is in the words of the lines.
pub fn text_end(input: &[u8]) -> usize
    ensures { TextEnd input.now result }
{
    let mut at = 0;
    while at < input.len() {
        let end = text_lines::line_end(input, at);
        if is_last(&input[at..end]) {
            return end;
        }
        at = end;
    }
    at
}

// Writes bytes from index `at` on, and tells the index behind them.
// `out` and `at` are no struct, here and below: `out` is lent by `eol2` and `vectors`, a struct that holds a `&mut` has no model, and without one each
// promise would speak of its two fields.
pub fn put(out: &mut [u8], at: usize, bytes: &[u8]) -> usize
    requires { at + length bytes.now ≤ length out.old }
    ensures { Put out.old at bytes.now out.new result }
{
    cells::put(out, at, bytes);
    at + bytes.len()
}

// Writes a name and a number.
fn put_field(out: &mut [u8], at: usize, name: &[u8], n: usize) -> usize
    requires { Room (length out.old) at (length name.now) n }
    ensures { Put out.old at (field name.now n) out.new result }
{
    let mut digits = [0u8; decimals::LONGEST];
    let count = decimals::put_decimal(&mut digits, n + components::ZERO);
    let next = put(out, at, name);
    put(out, next, &digits[..count])
}

// Writes a number's last two digits.
fn put_two(out: &mut [u8], at: usize, n: usize) -> usize
    requires { at + 2 ≤ length out.old }
    ensures { Put out.old at (two_digits n) out.new result }
{
    let tens = b'0' + (n / 10 % 10) as u8;
    let ones = b'0' + (n % 10) as u8;
    put(out, at, &[tens, ones])
}

// Writes the line of a refusal at the front, and tells its length.
pub fn refusal(out: &mut [u8], number: usize, line: usize) -> usize
    requires { RefusalRoom (length out.old) line }
    ensures { Put out.old 0 (refusal_line number line) out.new result }
{
    let a = put(out, 0, b"BLAD ");
    let b = put_two(out, a, number);
    let c = put_field(out, b, b" LINE ", line);
    put(out, c, b"\n")
}

// Writes STOP with the number that stopped a run, or PAUSE where none did.
fn put_answer(out: &mut [u8], at: usize, stopped: Option<usize>) -> usize
    requires { StopRoom (length out.old) at stopped }
    ensures { Put out.old at (answer_bytes (answer_of stopped)) out.new result }
{
    match stopped {
        None => put(out, at, b"PAUSE"),
        Some(number) => put_field(out, at, b"STOP ", number),
    }
}

// Writes the last line of a run.
pub fn put_end(
    out: &mut [u8],
    at: usize,
    stopped: Option<usize>,
    line: usize,
    count: usize,
) -> usize
    requires { EndRoom (length out.old) at stopped line count }
    ensures { Put out.old at (end_line (answer_of stopped) line count) out.new result }
{
    let a = put_answer(out, at, stopped);
    let b = put_field(out, a, b" LINE ", line);
    let c = put_field(out, b, b" STEPS ", count);
    put(out, c, b"\n")
}
