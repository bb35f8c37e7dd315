// No code: the paper's worked examples P1 to P10 (document 01, "Examples on either side") as one table with one theorem.
#![tactic(auto)]
