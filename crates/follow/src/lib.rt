// The story of a board and its followers: definitions and theorems, no code.
#![tactic(auto)]
