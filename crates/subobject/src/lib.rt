// One subobject of a route, for any form (document 01, "The route object"; forms::Form has the layout). In an RRO all 8 bits of the first octet are
// the type, and V is ignored. Its rules stand in specs/Rules, by number.
#![tactic(auto)]

mod head;
mod parts;
mod segment;

pub use head::{Head, head_at, head_of, kind, structured};
pub use parts::{
    BEHAVIOUR_PLACE, BIT_LENGTHS, FLAGS_PLACE, LOW_FLAGS_PLACE, MOST_BITS, NAI_SIZE, SID_SIZE,
    SIZE_PLACE, STRUCTURE_SIZE, WORTH_L, WORTH_NT, expected, sid_length,
};
pub use segment::{Outline, Segment, outline_of};
