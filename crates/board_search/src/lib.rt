// The places that the board's calls look for (document 01, "The board"): that of a key, the lowest empty one, that of the
// oldest removal, where a report goes, and the floor after it.
#![tactic(auto)]

mod key;
mod report;

pub use key::place_in;
pub use report::{floor_after, target};
