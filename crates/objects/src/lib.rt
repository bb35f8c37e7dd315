// The numbers that objects have in common (document 01, "The OPEN object" and "The route object"). An object
// starts with class (1 octet), type in the high 4 bits of the next octet (the low 4 are ignored), and a 2-octet
// length that counts the 4 header octets. No code: each reader, writer and caller takes its numbers from here.
#![tactic(auto)]

// octets of an object's header
pub const HEADER: usize = 4;

// lengths of objects and of what lies in them are multiples of this
pub const UNIT: usize = 4;

// where class, type and length stand
pub const CLASS_PLACE: usize = 0;

pub const TYPE_PLACE: usize = 1;

pub const LENGTH_PLACE: usize = 2;

// what the lowest bit of the type is worth in its octet
pub const TYPE_WORTH: usize = 16;

pub const OPEN_CLASS: usize = 1;

pub const ERO_CLASS: usize = 7;

pub const RRO_CLASS: usize = 8;

// OPEN, ERO and RRO are all of type 1
pub const OBJECT_TYPE: usize = 1;

// the setup type of an SRv6 path
pub const SRV6_SETUP: u64 = 3;

// and of an MPLS path
pub const MPLS_SETUP: u64 = 1;

// the octets that a segment keeps for a SID, and for an NAI
pub const SID_SIZE: usize = 16;

pub const NAI_SIZE: usize = 40;
