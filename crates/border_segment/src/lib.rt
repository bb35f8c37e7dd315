// A segment as it crosses the border to C and Rust, and what asking for one and stepping through a route hand back (include/strundevi.h).
#![tactic(auto)]

mod picking;
mod segment;
mod stepping;

pub use picking::{PickedRecord, picked_out};
pub use segment::{OutlineRecord, SegmentRecord, outline_in, segment_out};
pub use stepping::{SteppedRecord, stepped_out};
