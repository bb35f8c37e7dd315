// The marks that a compaction drops (document 01, "The board"): a removal with version at most c loses its place, key and version
// becoming 0.
#![tactic(auto)]

mod sweeping;

pub use sweeping::sweep;
