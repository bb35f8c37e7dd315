// The board's call that hands out a path, on a record whose parts are lent (document 01, "The board"): where it lies, its number, the octets, the form. It
// writes nothing.
#![tactic(auto)]

mod handing;

pub use handing::{body, body_form, body_number, path};
