// One number of a record's order, as a pass along the order meets it: whether the version of the place that it names may come behind
// those before it, and whether its key is none of theirs, which is seen by buckets of a hash: each key is compared with those before
// it that have its hash.
#![tactic(auto)]

mod bucket;
mod number;

pub use bucket::{SLOTS, bucketed};
pub use number::late;
