// The order after a compaction (document 02): places that were emptied stand on it no more.
#![tactic(auto)]

mod dropping;

pub use dropping::drop_empty;
