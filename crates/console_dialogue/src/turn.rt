// What a line leaves by value: the state, and the end of the answer in `out`.
ghost use Rattle.std.specs.Prelude.{◌≡◌};
ghost use Rattle.console_state.specs.State.{with_board, with_writer};

use console_board::Boarded;
use console_state::{State, with_board, with_writer};
use console_writer::Composed;

#[derive(Clone, Copy)]
pub struct Turn {
    pub state: State,
    pub end: usize,
}

pub fn ended(state: State, end: usize) -> Turn
    ensures ended { (result.state ≡ state) × (result.end ≡ end) }
{
    Turn { state, end }
}

// After a command about the writer.
pub fn composed(state: State, w: Composed) -> Turn
    ensures ended { (result.state ≡ with_writer state w.writer w.size) × (result.end ≡ w.end) }
{
    ended(with_writer(state, w.writer, w.size), w.end)
}

// After a command that may change the board.
pub fn boarded(state: State, b: Boarded) -> Turn
    ensures ended { (result.state ≡ with_board state b.board) × (result.end ≡ b.end) }
{
    ended(with_board(state, b.board), b.end)
}
