// The answer to any line, the n-th.
ghost use Rattle.console_state.specs.Rooms.{Rooms};
ghost use Rattle.console_dialogue.specs.Turns.{Does};

use crate::setting::set;
use crate::turn::{Turn, boarded, composed, ended};
use command_forms::MOST_SIZE;
use command_rows::{Row, row_of};
use console_board_rows::{changed, looked};
use console_route_rows::asked;
use console_state::State;
use console_writer_rows::written;

pub fn answered(
    state: State,
    line: &[u8],
    n: u64,
    store: &mut [u8],
    memory: &mut [u8],
    room: &mut [u8],
    out: &mut [u8],
) -> Turn
    requires { Rooms line.now store.old memory.old room.old out.old }
    ensures done { Does state store.old memory.old line.now n
        result.state store.new memory.new out.old out.new result.end }
{
    let c = command::parse(line);
    let row = row_of(c.verb);
    let State {
        board,
        pcc,
        pce,
        writer: w,
        size,
        given,
        ..
    } = state;
    let s = session::agree(pcc.ok(), pce.ok());
    match row {
        Row::Skip => ended(state, 0),
        Row::Bad => ended(state, console_lines::bad(out, n)),
        Row::Sets(x) => set(x, state, c, line, n, store, memory, room, out),
        Row::Asks(x) => ended(state, asked(x, c, line, s, memory, given, room, out)),
        Row::Writes(x) => composed(
            state,
            written(x, w, size, c, line, &mut memory[..MOST_SIZE], room, out),
        ),
        Row::Changes(x) => boarded(
            state,
            changed(x, board, c, line, s, store, memory, given, room, out),
        ),
        Row::Looks(x) => ended(state, looked(x, board, c, store, out)),
    }
}
