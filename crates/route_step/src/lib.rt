// Stepping through a route that was judged: from a place, the segment there and the place behind it. All segments then take one pass.
//
// Any octets and any place are taken, and nothing but the subobject at the place is looked at. The setup type names the form, SRv6's if it names none.
// Refused: 15, a place under 4, no multiple of 4, or at or past the end; 4, a subobject that doesn't fit; 14, one that isn't the form's; then 8, 9, 7, 11
// at its place, and 29, 30. What hangs on a session is judging's to ask.
#![tactic(auto)]

mod of_layout;
mod stepping;

pub use stepping::{Stepped, step};
