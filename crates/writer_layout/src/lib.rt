// A segment in octets (document 01, "Writing a route"): its subobject written at the start of what is lent.
#![tactic(auto)]

mod image;

pub use image::{Piece, write};
