// The rules on the whole frame of a route object (document 01, "The route object").
//
// 4: class as asked, type 1; object length equals the octets given, is a multiple of 4 and at least 4; each subobject length is
// a multiple of 4, at least 4, and fits. 5: no subobject. 6: the first subobject whose type differs from the first one's, if any
// is of the type asked for. 14: none is of that type.
#![tactic(auto)]

mod judged;

pub use judged::{framed, is_headed};
