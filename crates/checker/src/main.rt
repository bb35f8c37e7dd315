// The checking program: reads PCC OPEN, PCE OPEN and ERO from the first 65,536 octets of standard input and prints
// one line: number, place, count and stray segments of the first refusal, or of the ERO's answer (document 01, the last
// paragraph of "Examples on either side"). What it answers is `checker_verdict::check`.
#![tactic(auto)]

use std::io;
use streams::Streams;

// the octets of the input that are judged
const MOST_READ: usize = 65536;

fn main(rt: HostRuntime) -> io::Result<()> {
    let mut streams = Streams::new(rt.stdin(), rt.stdout());
    let mut input = [0u8; MOST_READ];
    let n = streams.read_full(&mut input);
    let verdict = checker_verdict::check(&input[..n]);
    let mut out = [0u8; console_lines::SHORT];
    let end = console_lines::whole(&mut out, verdict);
    streams.write(&out[..end]);
    streams.finish()
}
