// The rules of one subobject (document 01, "Numbers answered"; document 02, C-16): 8, 9, 7, 10 and 11, over its form and its head; 29 and 30 are `label_rules`.
// In an RRO 10 isn't applied.
#![tactic(auto)]

mod rule;

pub use rule::{eight, eleven, is_malformed, nine, seven, sum_at, ten};
