// report, remove, compact: the board that the call leaves, and the line.
ghost use Rattle.std.specs.Prelude.{◌*◌, ◌≤◌, ◌≡◌, length};
ghost use Rattle.printing.specs.Text.{Behind};
ghost use Rattle.console_lines.specs.Lines.{short};
ghost use Rattle.console_board.specs.BoardLines.{report_turn, remove_turn, compact_turn};

use board_record::Board;
use board_report_by_value::report;
use command::{Command, Line, octets_at};
use console_state::RouteLine;

// The board after a command, and the end of the line in the buffer.
#[derive(Clone, Copy)]
pub struct Boarded {
    pub board: Board,
    pub end: usize,
}

// `report KEY PST OCTETS`
pub fn reported(
    b: Board,
    r: RouteLine<'_>,
    store: &mut [u8],
    room: &mut [u8],
    out: &mut [u8],
) -> Boarded
    requires { (length r.line.octets.now ≤ 2 * length room.old) × (short ≤ length out.old) }
    ensures board { let line = r.entry.line in
        result.board ≡ (report_turn b store.old line.command line.octets.now r.entry.sessions r.entry.addresses.now).board }
    ensures store { let line = r.entry.line in
        store.new ≡ (report_turn b store.old line.command line.octets.now r.entry.sessions r.entry.addresses.now).store }
    ensures told { let line = r.entry.line in
        Behind out.old out.new 0 result.end (report_turn b store.old line.command line.octets.now r.entry.sessions r.entry.addresses.now).answer }
{
    let Line { command: c, octets } = r.line;
    let n = octets_at(octets, 3, room);
    match report(b, store, c.one, &room[..n], r.sessions, c.two, r.addresses) {
        Ok((after, counts)) => Boarded {
            board: after,
            end: console_state::counted(out, Ok(counts)),
        },
        Err(refusal) => Boarded {
            board: b,
            end: console_state::counted(out, Err(refusal)),
        },
    }
}

// `remove KEY`
pub fn removed(b: Board, c: Command, store: &[u8], out: &mut [u8]) -> Boarded
    requires { short ≤ length out.old }
    ensures board { result.board ≡ (remove_turn b store.now c).board }
    ensures told { Behind out.old out.new 0 result.end (remove_turn b store.now c).answer }
{
    match board_by_value::remove(b, store, c.one) {
        Ok(after) => Boarded {
            board: after,
            end: console_state::plain(out, Ok(())),
        },
        Err(refusal) => Boarded {
            board: b,
            end: console_state::plain(out, Err(refusal)),
        },
    }
}

// `compact C`
pub fn compacted(b: Board, c: Command, store: &[u8], out: &mut [u8]) -> Boarded
    requires { short ≤ length out.old }
    ensures board { result.board ≡ (compact_turn b store.now c).board }
    ensures told { Behind out.old out.new 0 result.end (compact_turn b store.now c).answer }
{
    match board_by_value::compact(b, store, c.one) {
        Ok(after) => Boarded {
            board: after,
            end: console_state::plain(out, Ok(())),
        },
        Err(refusal) => Boarded {
            board: b,
            end: console_state::plain(out, Err(refusal)),
        },
    }
}
