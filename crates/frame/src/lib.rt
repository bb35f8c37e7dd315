// The frame of a route object (document 01, "The route object").
//
//   class (7 ERO, 8 RRO), type 1 in the high 4 bits, a 2-octet length with the header; then subobjects, each with its length in its second octet.
//
// Here it is taken apart: one pass gathers what the rules ask for, and the place of a subobject is found. The rules on the whole, 4, 5, 6 and 14,
// stand in specs/Frames; the code that answers them is `frame_rules`.
#![tactic(auto)]

mod gathering;
mod place;

pub use gathering::{Facts, look};
pub use place::nth;
