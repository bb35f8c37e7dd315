// Whether one subobject breaks no rule (document 01, "Numbers answered"; document 02, C-16). The rules are not told apart here: who wants the first broken one asks
// `subobject_rules` and `label_rules` in their order. The head of an MPLS subobject is `subobject_shape`'s.
#![tactic(auto)]

mod sound;

pub use sound::{head_sound, label_sound, mpls_label_sound, structure_sound};
