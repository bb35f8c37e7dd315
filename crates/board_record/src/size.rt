// The sizes and bounds of the table (document 01, "The board").

// the table has 128 places
pub const PLACES: usize = 128;

// places of a group, of which the record keeps the largest version, and the groups
pub const GROUP: usize = 8;

pub const GROUPS: usize = 16;

// octets of the store that belong to a place: place i, from 0, starts at ROOM times i
pub const ROOM: usize = 384;

// octets of the store: 49,152
pub const STORE_SIZE: usize = PLACES * ROOM;

// keys are 1 to 1,048,574
pub const KEY_LEAST: u64 = 1;

pub const KEY_MOST: u64 = 1048574;

// the version is at most 2^64-2
pub const VERSION_MOST: u64 = 18446744073709551614;

// path lengths are multiples of 4 (objects::UNIT) to ROOM, from 24 in SRv6's form and from 8 in MPLS's
pub const BODY_LEAST_SRV6: usize = 24;

pub const BODY_LEAST_MPLS: usize = 8;
