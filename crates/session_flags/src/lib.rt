// No code: A and R in the OPENs that a session is made of, and what turning one on does to a route (document 02, C-15).
#![tactic(auto)]
