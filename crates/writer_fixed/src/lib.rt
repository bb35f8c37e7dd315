// The fixed part of a subobject in octets (document 01, "Writing a route"): what stands before the SID, written at the start of what is lent.
#![tactic(auto)]

mod head;

pub use head::fixed;
