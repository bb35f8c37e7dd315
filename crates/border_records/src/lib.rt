// The records that cross the border to C and Rust, laid out as C lays them out (include/strundevi.h).
//
// A flag is an octet there: 0 is no, every other number is yes, and an answer has 0 or 1, so no record can hold a
// value that is out of range. A limit is a flag and a number: without the flag the number does not count, and an
// answer has 0 there; so are v and m.
#![tactic(auto)]

mod depth;
mod limit;
mod verdict;

pub use depth::{depth_in, there, value};
pub use limit::{limit_in, limited, most, short, short_in};
pub use verdict::{VerdictRecord, answer_out, passed_out};
