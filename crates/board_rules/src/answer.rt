// What the board's calls answer.

// A change comes with its key and version.
#[derive(Clone, Copy)]
pub struct Change {
    pub key: u64,
    pub version: u64,
}

// A path's octets are named by place and length: place i, from 0, starts at octet 384 times i of the store. The form is the
// setup type that they were reported under (objects::SRV6_SETUP or MPLS_SETUP).
#[derive(Clone, Copy)]
pub struct Octets {
    pub place: usize,
    pub length: usize,
    pub form: usize,
}

// Next hands out a path, or a removal, or says that the follower is level with the board's version. These are three answers, each with
// what belongs to it alone, so neither an Option nor a Result has their shape; a refusal is the Err around them.
#[derive(Clone, Copy)]
pub enum Handed {
    Path(Change, Octets),
    Removed(Change),
    Level(u64),
}

// A follower's mark.
#[derive(Clone, Copy)]
pub struct Mark {
    pub s: u64,
    pub w: u64,
}
