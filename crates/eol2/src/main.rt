// The program of document 01: reads at most 65,536 bytes of standard input, loads the text among them, runs it and prints.
#![tactic(auto)]

ghost use Rattle.std.specs.Prelude.{◌≤◌, length, take, OnOk};
ghost use Rattle.std.specs.Io.KnownBytes.{Appends, Consumes};
ghost use Rattle.batch.specs.Printed.{printed_most};
ghost use Rattle.console.specs.Console.{printed};
ghost use Rattle.eol2.specs.Answering.{Answers};

use language::Machine;
use std::io;
use std::io::{Read, Write};

// Reads until the buffer is full, the input ends or a read fails, and returns how many bytes are then at its front, as `read_exact` does not.
fn read_full<R: Read>(input: &mut R, buffer: &mut [u8]) -> usize
    ensures within { result ≤ length buffer.new }
    ensures bytes { Consumes (R.remaining input.old) (R.remaining input.new) (take result buffer.new) }
{
    let mut done = 0;
    while done < buffer.len() {
        match input.read(&mut buffer[done..]) {
            Ok(0) => return done,
            Ok(n) => done += n,
            Err(_) => return done,
        }
    }
    done
}

// Prints what the input brings. Where it is known which bytes a writer holds, they are then the last ones.
// `batch` tells how many bytes of `out` it wrote, and `read_full` how many of `input` it read: those alone are passed on.
fn print<W: Write>(to: &mut W, input: &[u8], out: &mut [u8]) -> io::Result<()>
    requires { printed_most ≤ length out.old }
    ensures { OnOk result (Appends (W.contents to.old) (W.contents to.new) (printed input.now)) }
{
    let n = batch::answer(input, out);
    to.write_all(&out[..n])
}

// Reads, loads, runs and prints.
fn answer<R: Read, W: Write>(from: &mut R, to: &mut W) -> io::Result<()>
    ensures { Answers (R.remaining from.old) (R.remaining from.new) (W.contents to.old) (W.contents to.new) result }
{
    let mut input = [0u8; Machine::INPUT];
    let n = read_full(from, &mut input);
    let mut out = [0u8; batch::PRINTED];
    print(to, &input[..n], &mut out)
}

fn main(rt: HostRuntime) {
    let _ = answer(&mut rt.reader(), &mut io::writer(&rt));
}
