// Whether a route may be used, and its segments (document 01, "The route object"; document 02, C-16). The setup type (PST) names the
// form, SRv6's if it names none; the checks are those of that form.
//
// Checks on the whole, in order: 4, 5, 6, 14, 13. Then subobject by subobject, in each: 8, 9, 7, 10, 11, 29, 30. Last 12.
// In RRO 10 and 12 aren't applied. The place in an answer is for 6 to 11 the octet of the subobject at fault, counted from the
// object's start; for 12, that of the first segment too many; otherwise 0. Acceptance carries the number of segments, and
// of those in which something is set that ought to be 0 (document 02, C-18).
// Segment i, from 0, is asked for with the same object, session and PST: the same checks, then 15.
#![tactic(auto)]

mod judgement;
mod picking;

pub use judgement::{judge, judge_parts};
pub use picking::{Picked, segment};
