// The rules of one subobject asked by number (document 01, "The route object"): 8, 9, 7, 10, 11, 29, 30; no other number is a rule of it. Only the octets that a
// rule speaks of are read: those of a structure for 11, those of a label for 29 and 30. These two name no place.
#![tactic(auto)]

mod rule;

pub use rule::{bad_format, bad_label, breaks, place, too_long};
