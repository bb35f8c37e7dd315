// The board's call that takes a path away, on a record whose parts are lent (document 01, "The board"): it decides on numbers, then
// stores in place. A refusal writes nothing.
#![tactic(auto)]

mod parts;
mod removing;

pub use parts::Parts;
pub use removing::remove;
