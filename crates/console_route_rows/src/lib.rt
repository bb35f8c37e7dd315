// The rows of the console's table that ask about a route under the session: ero, rro, ero-segment, rro-segment
// (console.md).
#![tactic(auto)]

ghost use Rattle.std.specs.Prelude.{◌≤◌, length};
ghost use Rattle.printing.specs.Text.{Behind};
ghost use Rattle.console_fields.specs.Shown.{long};
ghost use Rattle.console_state.specs.Rooms.{Spells};
ghost use Rattle.console_state.specs.State.{list_in};
ghost use Rattle.console_route_rows.specs.Asked.{asked_line};

use command::{Command, Line};
use command_rows::Asking;
use console_routes::{judged, picked};
use console_state::{RouteLine, listed};
use session::Sessions;

pub fn asked<'a>(
    row: Asking,
    c: Command,
    line: &'a [u8],
    sessions: Sessions,
    memory: &'a [u8],
    given: usize,
    room: &mut [u8],
    out: &mut [u8],
) -> usize
    requires { Spells line.now room.old × (long ≤ length out.old) }
    ensures told { Behind out.old out.new 0 result (asked_line row c line.now sessions (list_in memory.now given)) }
{
    let addresses = listed(memory, given);
    let route = RouteLine {
        line: Line {
            command: c,
            octets: line,
        },
        sessions,
        addresses,
    };
    match row {
        Asking::Ero => judged(route, true, room, out),
        Asking::Rro => judged(route, false, room, out),
        Asking::EroSegment => picked(route, true, room, out),
        Asking::RroSegment => picked(route, false, room, out),
    }
}
