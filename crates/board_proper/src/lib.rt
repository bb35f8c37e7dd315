// Whether a record is a board's (document 01, "The board": what is proper; document 02: its order and its largest versions are sound). Lengths, forms and
// how large keys are is looked at for all places at once; then comes one pass along the order, which looks at each place that it
// names, and a count of the places that are empty. Versions that rise along the order are distinct, and the last of a group is
// its largest; that keys are distinct is seen by buckets of a hash: each key is compared with those before it that have its hash.
#![tactic(auto)]

mod pass;

pub use pass::is_proper;
