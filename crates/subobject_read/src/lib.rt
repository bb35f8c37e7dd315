// What the octets of one subobject say, as a segment (document 01, "The route object"). Padding, reserved octets and unassigned bits are
// no part of it; octets kept for a part that is absent or shorter are 0. The reader's answer also has what is set in them (document 02, C-18).
#![tactic(auto)]

mod answer;
mod reading;

pub use answer::read_at;
pub use reading::{no_segment, segment_at};
