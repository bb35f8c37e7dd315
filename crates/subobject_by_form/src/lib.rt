// What the octets of one subobject say, by a head that was read already and for a form whose numbers the compiler knows: what a step through a route
// hands out. It is the segment that `subobject_read::segment_at` reads of any form.
#![tactic(auto)]

mod by_layout;

pub use by_layout::segment;
