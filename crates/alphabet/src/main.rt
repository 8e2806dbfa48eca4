// Writes two lines of 88 bytes: the characters of EOL-2 that can be seen, in the order of their ranks, and the classes of all.
#![tactic(auto)]

use std::io::Write;
use std::{array, io};

// Writes a line of those of the bytes that can be seen, with spaces behind them.
fn write_line(rt: &impl Print, bytes: &[u8]) {
    let mut line = [b' '; characters::COUNT + 1];
    let seen = bytes
        .iter()
        .filter(|b| characters::between(b' ', b'~', **b));
    for (to, b) in line[..characters::COUNT].iter_mut().zip(seen) {
        *to = *b;
    }
    line[characters::COUNT] = b'\n';
    let _ = io::writer(rt).write_all(&line);
}

fn main(rt: HostRuntime) {
    let characters: [u8; characters::COUNT] = array::from_fn(|k| characters::byte_of(k + 1));
    let classes: [u8; characters::COUNT] = array::from_fn(|k| characters::class_at(k + 1));
    write_line(&rt, &characters);
    write_line(&rt, &classes);
}
