// Reading an OPEN object (document 01, "The OPEN object"): any octets in, an answer out.
#![tactic(auto)]

mod object;

pub use object::read_open;
