// The checking program's answer to many inputs, one to a line as pairs of hexadecimal digits: cuts at every place,
// lengths that are too small or too large, refused OPENs before and behind, octets behind the ERO.
#![tactic(auto)]

use std::io;
use std::io::{Read, Write};
use streams::Streams;
use words::{NEWLINE, word};

// the octets of the input that are read
const MOST_READ: usize = 65536;

// Answers one input.
fn answer<R: Read, W: Write>(streams: &mut Streams<R, W>, line: &[u8]) {
    let mut octets = [0u8; MOST_READ];
    if octets.len() < line.len() {
        return;
    }
    let n = hexadecimal::decode(line, &mut octets);
    if octets.len() < n {
        return;
    }
    let mut out = [0u8; console_lines::SHORT];
    let end = console_lines::whole(&mut out, checker_verdict::check(&octets[..n]));
    streams.write(&out[..end]);
}

// Answers each line; behind a newline at the end there is none.
fn answer_all<R: Read, W: Write>(streams: &mut Streams<R, W>, input: &[u8]) {
    for line in input.split_inclusive(|c| *c == NEWLINE) {
        answer(streams, word(line, NEWLINE, 0));
    }
}

fn main(rt: HostRuntime) -> io::Result<()> {
    let mut streams = Streams::new(rt.stdin(), rt.stdout());
    let mut input = [0u8; MOST_READ];
    let n = streams.read_full(&mut input);
    answer_all(&mut streams, &input[..n]);
    streams.finish()
}
