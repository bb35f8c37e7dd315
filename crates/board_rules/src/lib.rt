// What the board's calls answer (document 01, "The board"). Their rules, answers and what each leaves are definitions (specs), over a
// table and over a record with its rows; `board_rule17` and `board_refusals` test the rules.
#![tactic(auto)]

mod answer;

pub use answer::{Change, Handed, Mark, Octets};
