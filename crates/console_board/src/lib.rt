// The console's commands about the board: report, remove, compact, body, next, moved, mark, board, chain (console.md). `room`
// takes the octets that the line spells.
#![tactic(auto)]

mod change;
mod look;

pub use change::{Boarded, compacted, removed, reported};
pub use look::{body, chain, mark, moved, next, numbers};
