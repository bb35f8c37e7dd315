// Report on a record whose parts are lent (document 01, "The board"): it decides on numbers, then stores in place. A refusal
// writes nothing.
#![tactic(auto)]

mod reporting;

pub use reporting::report;
