// The rules of a route asked in document 01's order ("The route object"), the first broken one answering: 4, 5, 6, 14, 13 on the whole, then subobject by subobject
// 8, 9, 7, 10, 11, 29, 30, last 12. It takes the form; which form a setup type names, and how a route in which nothing is wrong is settled sooner, is `route`'s.
#![tactic(auto)]

mod order;

pub use order::judge_as;
