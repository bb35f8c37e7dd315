// What writing a route object refuses (document 01, "Writing a route"), as numbers: adding 8, 9, 7, 11, 29, 30 and 16, finishing 16 and 5.
#![tactic(auto)]

mod refusal;

pub use refusal::{adding, finishing};
