// How the console stands between two lines (console.md): the board, both halves of the session, the writer, how many
// octets of its memory are lent to the writer, where A and R stand, and how many octets the head end's addresses have.
// The store and the memory are lent to each call; the addresses lie in the memory behind the writer's part.
#![tactic(auto)]

mod answer;
mod cut;
mod route_line;
mod state;

pub use answer::{counted, plain};
pub use cut::{fit, listed};
pub use route_line::RouteLine;
pub use state::{
    State, start, with_board, with_given, with_pcc, with_pce, with_positions, with_writer,
};
