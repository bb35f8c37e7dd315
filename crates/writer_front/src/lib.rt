// How many octets a segment to add has before its NAI and in it (document 01, "Writing a route"; document 02, C-16). None before it says that the segment is barred:
// a structure without a SID, octets behind a SID that are not 0, what is foreign to the form, flags that do not go together.
#![tactic(auto)]

mod lengths;

pub use lengths::{front, nai_octets};
