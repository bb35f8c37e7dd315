// Labels alone (document 02, C-16): MPLS subobjects that carry a label and nothing beside it, which is what most routes of labels are made of. How many of them a
// route begins with is found by looking at each as two numbers; what they break is not told here, since one that breaks a rule is not counted.
#![tactic(auto)]

mod alone;

pub use alone::{ENTRY_PLACE, LABEL_SIZE, TTL_PLACE, label_good, labels};
