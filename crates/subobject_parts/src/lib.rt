// The parts of a segment out of octets (document 01, "The route object"): its endpoint behaviour, its SID and its NAI, its bit lengths.
// Octets kept for a part that is absent or shorter are 0.
#![tactic(auto)]

mod by_layout;
mod eights;
mod part;

pub use by_layout::{nai, sid};
pub use part::{behaviour_at, structure_at};
