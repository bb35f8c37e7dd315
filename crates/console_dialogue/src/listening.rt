// The input, each line answered as soon as it has been read.
ghost use Rattle.std.specs.Prelude.{◌+◌, ◌*◌, ◌≤◌, ◌≡◌, length};
ghost use Rattle.console_state.specs.State.{store_at_start};
ghost use Rattle.console_dialogue.specs.Input.{ReadyToHear, heard_of, hear_all};
ghost use Rattle.console_dialogue.specs.Reached.{Reached, Ended};

use crate::heard::{Hearing, answer};
use crate::onward::take_in;
use board_record::STORE_SIZE;
use command::LONGEST_LINE;
use command_forms::MOST_SIZE;
use console_fields::LONG;
use std::io::{Read, Write};
use streams::Streams;

// one octet more than the longest line has
const KEPT: usize = LONGEST_LINE + 1;

// the octets that a line spells
const SPELLED: usize = KEPT / 2 + 1;

// the writer's buffer, and behind it the head end's addresses
const MEMORY: usize = MOST_SIZE + SPELLED;

// a line of octets, and words before them
const ANSWER: usize = 2 * MOST_SIZE + LONG;

// the octets that are read at once
const MOST_READ: usize = 65536;

// Takes in all that was read, and writes the answer to each line that ends there.
fn take_all<R: Read, W: Write>(
    streams: &mut Streams<R, W>,
    h: Hearing,
    read: &[u8],
    line: &mut [u8],
    store: &mut [u8],
    memory: &mut [u8],
    room: &mut [u8],
    out: &mut [u8],
) -> Hearing
    requires { ReadyToHear h.kept line.old store.old memory.old room.old out.old }
    ensures heard { let before = heard_of h store.old memory.old line.old in
        let after = heard_of result store.new memory.new line.new in
        after ≡ hear_all before read.now }
    ensures within { result.kept ≤ length line.old }
{
    let mut heard = h;
    let mut at: usize = 0;
    // no `for`: each line that is taken in says where the next begins
    while at < read.len() {
        let onward = take_in(heard, read, at, line, store, memory, room, out);
        streams.write(&out[..onward.end]);
        heard = onward.hearing;
        at = onward.next;
    }
    heard
}

// What has been heard, and whether the input goes on.
#[derive(Clone, Copy)]
struct Listened {
    hearing: Hearing,
    more: bool,
}

// Reads what there is. At the input's end the last line is answered: after a newline that is an empty one.
fn listen<R: Read, W: Write>(
    streams: &mut Streams<R, W>,
    h: Hearing,
    line: &mut [u8],
    store: &mut [u8],
    memory: &mut [u8],
    room: &mut [u8],
    out: &mut [u8],
) -> Listened
    requires { ReadyToHear h.kept line.old store.old memory.old room.old out.old }
    ensures reached { let before = heard_of h store.old memory.old line.old in
        let after = heard_of result.hearing store.new memory.new line.new in
        (Reached before → Reached after) }
    ensures within { result.hearing.kept ≤ length line.old }
{
    let mut read = [0u8; MOST_READ];
    let n = streams.read(&mut read);
    if n > 0 {
        let heard = take_all(streams, h, &read[..n], line, store, memory, room, out);
        return Listened {
            hearing: heard,
            more: true,
        };
    }
    let said = answer(h, line, store, memory, room, out);
    streams.write(&out[..said.end]);
    Listened {
        hearing: said.hearing,
        more: false,
    }
}

// A proved loop has to end, and nothing says that the input does: so it counts its turns down, from a number that
// no run uses up.
fn go_on<R: Read, W: Write>(
    streams: &mut Streams<R, W>,
    line: &mut [u8],
    store: &mut [u8],
    memory: &mut [u8],
    room: &mut [u8],
    out: &mut [u8],
) -> Hearing
    requires { (store.old ≡ store_at_start) × ReadyToHear 0 line.old store.old memory.old room.old out.old }
    ensures reached { Reached (heard_of result store.new memory.new line.new) }
{
    let state = console_state::start();
    let mut h = Hearing {
        state,
        kept: 0,
        lines: 0,
    };
    let mut more = true;
    let mut turns = u64::MAX;
    // no `for`: the input ends it, and the count is there for the proof alone
    while turns > 0 && more {
        let l = listen(streams, h, line, store, memory, room, out);
        h = l.hearing;
        more = l.more;
        turns -= 1;
    }
    h
}

// Answers every line of the input, and hands back how the console then stands.
pub fn converse<R: Read, W: Write>(streams: &mut Streams<R, W>) -> Hearing
    ensures ended { Ended result }
{
    let mut line = [0u8; KEPT];
    let mut store = [0u8; STORE_SIZE];
    let mut memory = [0u8; MEMORY];
    let mut room = [0u8; SPELLED];
    let mut out = [0u8; ANSWER];
    go_on(
        streams,
        &mut line,
        &mut store,
        &mut memory,
        &mut room,
        &mut out,
    )
}
