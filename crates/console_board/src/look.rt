// body, next, moved, mark, board, chain: the line.
ghost use Rattle.std.specs.Prelude.{◌+◌, ◌*◌, ◌≤◌, ◌≡◌, length};
ghost use Rattle.octets.specs.Octets.{part};
ghost use Rattle.board_record.specs.Sizes.{places, room};
ghost use Rattle.printing.specs.Text.{Behind, field_size};
ghost use Rattle.console_lines.specs.Lines.{short};
ghost use Rattle.console_board.specs.BoardLines.{body_line, next_line, moved_line, mark_line, board_line, chain_line};

use board_record::{Board, PLACES};
use board_rules::Handed;
use command::Command;

// `body KEY`
pub fn body(b: Board, c: Command, store: &[u8], out: &mut [u8]) -> usize
    requires { 2 * length store.now + short ≤ length out.old }
    ensures told { Behind out.old out.new 0 result (body_line b store.now c) }
{
    if let Err(refusal) = board_look_by_value::body_number(b, store, c.one) {
        return console_lines::refusal(out, refusal.reason.number(), refusal.place);
    }
    let form = board_look_by_value::body_form(b, store, c.one);
    let path = board_look_by_value::body(b, store, c.one);
    console_accepted::formed(out, form as u64, path)
}

// `next S W`
pub fn next(b: Board, c: Command, store: &[u8], out: &mut [u8]) -> usize
    requires { 2 * length store.now + short ≤ length out.old }
    ensures told { Behind out.old out.new 0 result (next_line b store.now c) }
{
    match board_look_by_value::next(b, store, c.one, c.two) {
        Err(refusal) => console_lines::refusal(out, refusal.reason.number(), refusal.place),
        Ok(Handed::Path(change, path)) => console_accepted::path(
            out,
            change.key,
            change.version,
            path.form as u64,
            named(store, path.place, path.length),
        ),
        Ok(Handed::Removed(change)) => console_accepted::removed(out, change.key, change.version),
        Ok(Handed::Level(version)) => console_accepted::level(out, version),
    }
}

// `moved A B V`
pub fn moved(b: Board, c: Command, store: &[u8], out: &mut [u8]) -> usize
    requires { short ≤ length out.old }
    ensures told { Behind out.old out.new 0 result (moved_line b store.now c) }
{
    match board_look_by_value::moved(b, store, c.one, c.two, c.three) {
        Ok(yes) => console_accepted::one(out, u64::from(yes)),
        Err(refusal) => console_lines::refusal(out, refusal.reason.number(), refusal.place),
    }
}

// The octets that a place and a length name.
fn named(store: &[u8], place: usize, n: usize) -> &[u8]
    requires { room * place + n ≤ length store.now }
    ensures named { result.now ≡ part store.now (room * place) n }
{
    let from = board_record::ROOM * place;
    let to = from + n;
    &store[from..to]
}

// `mark`: a fresh one.
pub fn mark(b: Board, out: &mut [u8]) -> usize
    requires { short ≤ length out.old }
    ensures told { Behind out.old out.new 0 result (mark_line b) }
{
    let m = board_look_by_value::fresh_mark(b);
    console_accepted::two(out, m.s, m.w)
}

// `board`: version and floor.
pub fn numbers(b: Board, out: &mut [u8]) -> usize
    requires { short ≤ length out.old }
    ensures told { Behind out.old out.new 0 result (board_line b) }
{
    console_accepted::two(out, b.version, b.floor)
}

// `chain`: the used places from the oldest change to the newest.
pub fn chain(b: Board, out: &mut [u8]) -> usize
    requires { field_size * places + short ≤ length out.old }
    ensures told { Behind out.old out.new 0 result (chain_line b) }
{
    let mut laid = [0u8; PLACES];
    let n = console_chain::along(&b.order, &mut laid);
    console_accepted::list(out, &laid[..n])
}
