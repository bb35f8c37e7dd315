// The tests that writing a route object makes (document 01, "Writing a route"): whether a segment is unfit, its structure too long, its label bad, and
// whether the place is bad or the object passes its end.
#![tactic(auto)]

mod place;
mod test;

pub use place::misplaced;
pub use test::{crowded, label_bad, misfit, misfit_of_nt, overlong, time_bad};
