// Octets: reading them as numbers, padding, and copying them into a lent buffer.
// All numbers are big-endian (document 01, "The OPEN object").
#![tactic(auto)]

mod put;
mod take;

pub use put::{copy, lay};
pub use take::{END16, octet, padded, part, read16};
