// The board's call that drops marks, on a record whose parts are lent (document 01, "The board"): it decides on numbers, then stores
// in place. A refusal writes nothing.
#![tactic(auto)]

mod compacting;
mod parts;

pub use compacting::compact;
pub use parts::Parts;
