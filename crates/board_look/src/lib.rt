// The board's calls that say what changed, on a record whose parts are lent (document 01, "The board"; moved: document 02). They write nothing.
#![tactic(auto)]

mod looking;

pub use looking::{moved, next};
