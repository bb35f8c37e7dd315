// Whether a key of a range has moved since a version (document 02), found by the largest version of each 8 places.
#![tactic(auto)]

mod range;

pub use range::any_moved;
