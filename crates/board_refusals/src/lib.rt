// The rules of the board's calls in their order, on numbers (document 01, "The board"): the first broken one is the answer. They take a
// board for granted: rule 17, the first of each call, is `board_rule17::is_board`.
#![tactic(auto)]

mod rule;

pub use rule::{body_rules, compact_rules, moved_rules, next_rules, remove_rules, report_rules};
