// No code: that the calls on a record with its places in order answer as those on the table without, call for call, from the
// empty start; and so no follower of a record is fooled.
#![tactic(auto)]
