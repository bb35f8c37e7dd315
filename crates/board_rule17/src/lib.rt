// Rule 17 of the board's calls (document 01, "The board"): whether a store and a record are a board; and what stands at a place of it.
#![tactic(auto)]

mod places;

pub use places::{is_board, path_at, path_place, start_of};
