// The places in order of change (document 02): a list of 128 numbers that name the used places from the oldest change to the
// newest, each by 1 more than the place, with 0 behind them. What a number names, and where in the order a version lies.
#![tactic(auto)]

mod halving;
mod naming;

pub use halving::first_above;
pub use naming::{named, place_of};
