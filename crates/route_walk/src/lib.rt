// The walk over the subobjects of a route and their checks (document 01, "The route object"): 8, 9, 7, 10, 11, 29, 30, in each subobject in this order.
// What is set and ought to be 0 is no broken rule: it is counted.
// The place in an answer is the octet of the subobject at fault, counted from the object's start; for 29 and 30 it is 0.
#![tactic(auto)]

mod order;
mod subobjects;

pub use subobjects::walk;
