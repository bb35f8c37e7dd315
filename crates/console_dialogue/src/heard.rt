// What has been heard, and the answer to a line.
ghost use Rattle.std.specs.Prelude.{◌≡◌};
ghost use Rattle.printing.specs.Text.{Behind};
ghost use Rattle.console_dialogue.specs.Input.{ReadyToHear, heard_of, line_ended, turn_now};

use crate::reply::answered;
use console_input_parts::numbered;
use console_state::State;

// The console's state, how many octets of a line have been kept, and the lines before it.
#[derive(Clone, Copy)]
pub struct Hearing {
    pub state: State,
    pub kept: usize,
    pub lines: u64,
}

// What has been heard, and the end of the answer in `out`.
#[derive(Clone, Copy)]
pub struct Said {
    pub hearing: Hearing,
    pub end: usize,
}

// Answers the line that has been read.
pub fn answer(
    h: Hearing,
    line: &[u8],
    store: &mut [u8],
    memory: &mut [u8],
    room: &mut [u8],
    out: &mut [u8],
) -> Said
    requires { ReadyToHear h.kept line.now store.old memory.old room.old out.old }
    ensures heard { heard_of result.hearing store.new memory.new line.now ≡ line_ended (heard_of h store.old memory.old line.now) }
    ensures told { Behind out.old out.new 0 result.end (turn_now (heard_of h store.old memory.old line.now)).answer }
    ensures begun { result.hearing.kept ≡ 0 }
{
    let lines = numbered(h.lines);
    let turn = answered(h.state, &line[..h.kept], lines, store, memory, room, out);
    Said {
        hearing: Hearing {
            state: turn.state,
            kept: 0,
            lines,
        },
        end: turn.end,
    }
}
