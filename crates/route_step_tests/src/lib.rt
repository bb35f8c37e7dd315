// What one step through a route asks of the octets at its place: whether a subobject begins there (else 15), whether it fits (else 4), and of a subobject whose SID
// is there whole the rules of a label, 29 and 30.
#![tactic(auto)]

mod label;
mod place;

pub use label::{bad_format, bad_label};
pub use place::{is_outside, is_unfit};
