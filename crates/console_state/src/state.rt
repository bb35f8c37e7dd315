// What the console keeps by value between two lines.
ghost use Rattle.std.specs.Prelude.{◌≡◌};
ghost use Rattle.console_state.specs.State.{state_at_start, with_board, with_pcc, with_pce, with_writer, with_positions, with_given};

use answers::Reason;
use board_record::Board;
use flag_positions::Positions;
use session::{Carried, OpenRefusal};
use writer_state::Writer;

#[derive(Clone, Copy)]
pub struct State {
    pub board: Board,
    pub pcc: Result<Carried, OpenRefusal>,
    pub pce: Result<Carried, OpenRefusal>,
    pub writer: Writer,
    pub size: usize,
    pub positions: Positions,
    pub given: usize,
}

// An OPEN that has not been heard counts as refused.
const UNHEARD: Result<Carried, OpenRefusal> = Err(OpenRefusal {
    reason: Reason::OpenMalformed,
    form: None,
});

// The start.
pub fn start() -> State
    ensures start { result ≡ state_at_start }
{
    State {
        board: board_record::empty(),
        pcc: UNHEARD,
        pce: UNHEARD,
        writer: Writer {
            ero: true,
            at: 0,
            form: objects::SRV6_SETUP as u8,
        },
        size: 0,
        positions: flag_positions::first_two(),
        given: 0,
    }
}

pub fn with_board(state: State, board: Board) -> State
    ensures board { result ≡ with_board state board }
{
    State { board, ..state }
}

pub fn with_pcc(state: State, pcc: Result<Carried, OpenRefusal>) -> State
    ensures pcc { result ≡ with_pcc state pcc }
{
    State { pcc, ..state }
}

pub fn with_pce(state: State, pce: Result<Carried, OpenRefusal>) -> State
    ensures pce { result ≡ with_pce state pce }
{
    State { pce, ..state }
}

// Another writer, and the octets that are lent to it.
pub fn with_writer(state: State, writer: Writer, size: usize) -> State
    ensures writer { result ≡ with_writer state writer size }
{
    State {
        writer,
        size,
        ..state
    }
}

// A and R at two other positions.
pub fn with_positions(state: State, a: u64, r: u64) -> State
    ensures positions { result ≡ with_positions state a r }
{
    State {
        positions: Positions { a, r },
        ..state
    }
}

// Another number of octets in the list of addresses.
pub fn with_given(state: State, given: usize) -> State
    ensures given { result ≡ with_given state given }
{
    State { given, ..state }
}
