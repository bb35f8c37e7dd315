// Whether length, NT and flags of an MPLS subobject go together, all at once (document 02, C-16): 8, 9, 7 and 10. Which of them is broken is not told here.
#![tactic(auto)]

mod shape;

pub use shape::mpls_head_sound;
