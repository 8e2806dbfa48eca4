// Runs each vector of standard input through the program and compares what it prints. tools/pack-vectors has the form of the vectors.
#![tactic(auto)]

ghost use Rattle.std.specs.Prelude.{◌≡◌, ◌≤◌, min, length, drop};
ghost use Rattle.batch.specs.Printed.{printed_most};
ghost use Rattle.vectors.specs.Vectors.{Buffers, prints_as, passes_as};

use language::Machine;
use std::io;
use std::io::{Read, Write};

// At most so many vectors are read.
const MOST: u64 = 100_000;

// The head of a vector: its name, and where the counts of the bytes of its input and of those to be printed stand.
const HEAD: usize = 64;

const NAME: usize = 56;

const INPUT_COUNT: usize = 56;

const EXPECTED_COUNT: usize = 60;

// Reads `n` bytes, or as many as there are, to the front of a buffer; those behind stay.
fn fill<R: Read>(from: &mut R, buffer: &mut [u8], n: usize)
    requires { n ≤ length buffer.old }
    ensures { drop n buffer.new ≡ drop n buffer.old }
{
    let _ = from.read_exact(&mut buffer[..n]);
}

// Whether the program prints what is expected.
fn prints(input: &[u8], expected: &[u8], out: &mut [u8]) -> bool
    requires { printed_most ≤ length out.old }
    ensures { result ≡ prints_as input.now expected.now }
{
    let n = batch::answer(input, out);
    &out[..n] == expected
}

// Reads the rest of a vector, and tells whether it passes.
fn passes<R: Read>(
    from: &mut R,
    head: &[u8],
    input: &mut [u8],
    expected: &mut [u8],
    out: &mut [u8],
) -> bool
    requires { Buffers (length head.now) (length out.old) }
    ensures { result ≡ passes_as head.now input.new expected.new }
{
    let n = cells::three_at(head, INPUT_COUNT).min(input.len());
    let m = cells::three_at(head, EXPECTED_COUNT).min(expected.len());
    fill(from, input, n);
    fill(from, expected, m);
    prints(&input[..n], &expected[..m], out)
}

// Prints the name of a vector that does not pass. Of what a handle prints no contract speaks.
fn differs<P: Print>(rt: &P, head: &[u8])
    requires { 56 ≤ length head.now }
{
    let mut out = io::writer(rt);
    let _ = out.write_all(b"differs: ");
    let _ = out.write_all(&head[..NAME]);
    let _ = out.write_all(b"\n");
}

// How many vectors pass, up to the first that does not. Which ones they are, the bytes that the reader brings decide.
fn count_passed<P: Print, R: Read>(rt: &P, from: &mut R) -> u64
    ensures { result ≤ 100000 }
{
    let mut head = [0u8; HEAD];
    let mut input = [0u8; Machine::INPUT];
    let mut expected = [0u8; batch::PRINTED];
    let mut out = [0u8; batch::PRINTED];
    for count in 0..MOST {
        fill(from, &mut head, HEAD);
        if head[0] == 0 {
            return count;
        }
        if !passes(from, &head, &mut input, &mut expected, &mut out) {
            differs(rt, &head);
            return count;
        }
    }
    MOST
}

fn main(rt: HostRuntime) {
    let count = count_passed(&rt, &mut rt.reader());
    let _ = println!(rt; "{count} vectors passed");
}
