// The console: drives the whole library, one call to a line (console.md). Its stored run is the console's own
// edges: lines out of form, numbers and octets at their bounds, lines that are too long, a last line without a
// newline.
#![tactic(auto)]

use std::io;
use streams::Streams;

fn main(rt: HostRuntime) -> io::Result<()> {
    let mut streams = Streams::new(rt.stdin(), rt.stdout());
    let end = console_dialogue::converse(&mut streams);
    streams.finish()
}
