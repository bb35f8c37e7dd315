// The console on routes: document 01's examples, every prefix and every length inside good samples, every damage
// of one octet of E, every NT with every flag, and every segment.
#![tactic(auto)]

use std::io;
use streams::Streams;

fn main(rt: HostRuntime) -> io::Result<()> {
    let mut streams = Streams::new(rt.stdin(), rt.stdout());
    let end = console_dialogue::converse(&mut streams);
    streams.finish()
}
