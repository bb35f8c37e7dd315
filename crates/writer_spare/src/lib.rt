// The octets that a segment keeps for a part that is absent or shorter (document 01, "Writing a route"): they are 0.
#![tactic(auto)]

mod lent;
mod spare;

pub use lent::Lent;
pub use spare::{rest_tidy, rest_tidy_of_nt, sid_blank, sid_tidy};
