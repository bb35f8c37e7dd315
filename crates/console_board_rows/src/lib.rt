// The rows of the console's table about the board (console.md): report, remove, compact, which may change it; body,
// next, moved, mark, board, chain, which look at it.
#![tactic(auto)]

ghost use Rattle.std.specs.Prelude.{◌+◌, ◌*◌, ◌≤◌, ◌≡◌, length};
ghost use Rattle.printing.specs.Text.{Behind, field_size};
ghost use Rattle.board_record.specs.Sizes.{places};
ghost use Rattle.console_lines.specs.Lines.{short};
ghost use Rattle.console_state.specs.State.{list_in};
ghost use Rattle.console_board_rows.specs.Boarded.{changed_turn, looked_line};

use board_record::Board;
use command::{Command, Line};
use command_rows::{Changing, Looking};
use console_board::{
    Boarded, body, chain, compacted, mark, moved, next, numbers, removed, reported,
};
use console_state::{RouteLine, listed};
use session::Sessions;

pub fn changed<'a>(
    row: Changing,
    b: Board,
    c: Command,
    line: &'a [u8],
    sessions: Sessions,
    store: &mut [u8],
    memory: &'a [u8],
    given: usize,
    room: &mut [u8],
    out: &mut [u8],
) -> Boarded
    requires { (length line.now ≤ 2 * length room.old) × (short ≤ length out.old) }
    ensures board { result.board ≡ (changed_turn row b store.old c line.now sessions (list_in memory.now given)).board }
    ensures store { store.new ≡ (changed_turn row b store.old c line.now sessions (list_in memory.now given)).store }
    ensures told { let turn = changed_turn row b store.old c line.now sessions (list_in memory.now given) in
        Behind out.old out.new 0 result.end turn.answer }
{
    match row {
        Changing::Report => {
            let addresses = listed(memory, given);
            let route = RouteLine {
                line: Line {
                    command: c,
                    octets: line,
                },
                sessions,
                addresses,
            };
            reported(b, route, store, room, out)
        }
        Changing::Remove => removed(b, c, store, out),
        Changing::Compact => compacted(b, c, store, out),
    }
}

pub fn looked(row: Looking, b: Board, c: Command, store: &[u8], out: &mut [u8]) -> usize
    requires { (2 * length store.now + short ≤ length out.old) × (field_size * places + short ≤ length out.old) }
    ensures told { Behind out.old out.new 0 result (looked_line row b store.now c) }
{
    match row {
        Looking::Body => body(b, c, store, out),
        Looking::Next => next(b, c, store, out),
        Looking::Moved => moved(b, c, store, out),
        Looking::Mark => mark(b, out),
        Looking::Board => numbers(b, out),
        Looking::Chain => chain(b, out),
    }
}
