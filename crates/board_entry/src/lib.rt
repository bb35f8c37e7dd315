// What an accepted report leaves in the record (document 01, "The board"): its place has the key, the next version, a length and a form; it
// is the newest on the order, and its version the largest of its group; the board's version and floor rise.
#![tactic(auto)]

mod entering;
mod parts;

pub use entering::enter;
pub use parts::Parts;
