// The place of the next change for a follower's mark (document 01, "The board"), found along the order (document 02).
#![tactic(auto)]

mod change;

pub use change::next_place;
