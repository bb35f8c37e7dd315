// One pass over a route in which nothing is wrong: its frame is whole, its subobjects are of the form's type, none breaks a rule. What it settles is that the rules on
// the frame and those of the subobjects are kept, how many segments there are and how many of them are stray. Where something is wrong it settles nothing,
// and the rules are asked in their order (`frame_rules`, `route_walk`).
#![tactic(auto)]

mod of_layout;
mod seeing;

pub use of_layout::Passed;
pub use seeing::{STRAY_WORTH, see};
