// What was read, a line at a time.
ghost use Rattle.std.specs.Prelude.{◌≤◌, ◌<◌, ◌≡◌, ◌++◌, length, take, drop};
ghost use Rattle.console_dialogue.specs.Input.{ReadyToHear, heard_of, hear_all, say_all};

use crate::heard::{Hearing, answer};
use crate::line::keep;
use console_input_parts::part as part_of;

// What has been heard, the end of the answer in `out`, and where to go on in what was read.
#[derive(Clone, Copy)]
pub struct Onward {
    pub hearing: Hearing,
    pub end: usize,
    pub next: usize,
}

// Takes in what was read from `at` on, to the end of a line, and answers that.
pub fn take_in(
    h: Hearing,
    read: &[u8],
    at: usize,
    line: &mut [u8],
    store: &mut [u8],
    memory: &mut [u8],
    room: &mut [u8],
    out: &mut [u8],
) -> Onward
    requires { (at < length read.now) × ReadyToHear h.kept line.old store.old memory.old room.old out.old }
    ensures heard { let before = heard_of h store.old memory.old line.old in
        let after = heard_of result.hearing store.new memory.new line.new in
        hear_all after (drop result.next read.now) ≡ hear_all before (drop at read.now) }
    ensures said { let before = heard_of h store.old memory.old line.old in
        let after = heard_of result.hearing store.new memory.new line.new in
        take result.end out.new ++ say_all after (drop result.next read.now) ≡ say_all before (drop at read.now) }
    ensures within { (at < result.next) × (result.next ≤ length read.now) × (result.hearing.kept ≤ length line.old) × (result.end ≤ length out.old) }
{
    let part = part_of(read, at);
    let end = at + part.len();
    let kept = keep(line, h.kept, part);
    let longer = Hearing { kept, ..h };
    if end < read.len() {
        let said = answer(longer, line, store, memory, room, out);
        return Onward {
            hearing: said.hearing,
            end: said.end,
            next: end + 1,
        };
    }
    Onward {
        hearing: longer,
        end: 0,
        next: read.len(),
    }
}
