// The order after a change (document 02): the place that holds it is the newest.
#![tactic(auto)]

mod finding;
mod moving;

pub use moving::move_last;
