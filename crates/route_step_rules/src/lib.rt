// The rules of one step through a route, the first broken one at a place: 15, 4, 14, 8, 9, 7, 11, 29, 30, built for each form by itself, so that the compiler knows
// its numbers. What hangs on the whole route or on a session, 5, 6, 13, 10 and 12, is judging's to ask.
#![tactic(auto)]

mod refusal;
mod rules;

pub use rules::verdict;
