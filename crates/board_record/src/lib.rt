// The table of paths in force (document 01, "The board"): 128 places, all empty at the start; each holds a key,
// a version and either a path body or the mark of a removal. Bodies lie in 49,152 lent octets, 384 a place.
#![tactic(auto)]

mod lent;
mod record;
mod size;

pub use lent::Lent;
pub use record::{Board, empty};
pub use size::{
    BODY_LEAST_MPLS, BODY_LEAST_SRV6, GROUP, GROUPS, KEY_LEAST, KEY_MOST, PLACES, ROOM, STORE_SIZE,
    VERSION_MOST,
};
