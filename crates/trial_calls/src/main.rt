// The console on all but routes. The board: document 01's examples, and longer histories that fill all 128 places, evict
// and compact. Writing: routes of every NT with and without SID and structure, to the edge of the buffer and one octet
// short of it, read back and written again. OPEN objects: document 01's examples, every prefix of O, every smaller length
// inside it, every point that is easy to get wrong, and the session of two answers.
#![tactic(auto)]

use std::io;
use streams::Streams;

fn main(rt: HostRuntime) -> io::Result<()> {
    let mut streams = Streams::new(rt.stdin(), rt.stdout());
    let end = console_dialogue::converse(&mut streams);
    streams.finish()
}
