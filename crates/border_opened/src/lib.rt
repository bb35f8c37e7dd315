// The answer to an OPEN as it crosses the border to C and Rust, and where A and R stand (include/strundevi.h).
#![tactic(auto)]

mod opened;
mod positions;

pub use opened::{OpenedRecord, carried_in, opened_out};
pub use positions::{PositionsRecord, positions_in};
