// The largest version of each 8 places (document 02): the row once a place holds a version above all others, and the row worked out
// anew.
#![tactic(auto)]

mod raising;
mod working;

pub use raising::raise;
pub use working::work_out;
