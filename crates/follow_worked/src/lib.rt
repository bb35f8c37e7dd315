// The worked history of a board and its followers: a computation, no code.
#![tactic(auto)]
