// The numbers that a refusal carries (document 01, "Numbers answered").

// OPEN ill formed
pub const OPEN_MALFORMED: usize = 1;

// capability missing
pub const CAPABILITY_MISSING: usize = 2;

// wrong MSD type
pub const WRONG_MSD: usize = 3;

// route frame broken
pub const FRAME_BROKEN: usize = 4;

// route empty
pub const ROUTE_EMPTY: usize = 5;

// kinds mixed
pub const KINDS_MIXED: usize = 6;

// F isn't 1 exactly for NT 0, or Length isn't as expected
pub const LENGTH_WRONG: usize = 7;

// an NT that the form does not know: not 0, 2, 4, 6
pub const NAI_UNKNOWN: usize = 8;

// S and F both 1
pub const NOTHING_THERE: usize = 9;

// no SID, and the PCC's N is 0
pub const SID_NEEDED: usize = 10;

// four bit lengths sum above 128
pub const STRUCTURE_TOO_LONG: usize = 11;

// more segments than the limit
pub const TOO_MANY_SEGMENTS: usize = 12;

// the setup type is not the form's, or the form is not agreed
pub const NOT_AGREED: usize = 13;

// no subobject of the form that the setup type names
pub const NONE_OF_FORM: usize = 14;

// no such segment
pub const NO_SUCH_SEGMENT: usize = 15;

// lent buffer full
pub const BUFFER_FULL: usize = 16;

// not a board
pub const NOT_A_BOARD: usize = 17;

// key out of range
pub const KEY_OUT_OF_RANGE: usize = 18;

// body above 384 octets
pub const BODY_TOO_LONG: usize = 19;

// version is 2^64-2
pub const VERSIONS_USED_UP: usize = 20;

// 128 paths
pub const ALL_PATHS: usize = 21;

// key has no path
pub const NO_PATH: usize = 22;

// mark too old
pub const MARK_TOO_OLD: usize = 23;

// mark ahead
pub const MARK_AHEAD: usize = 24;

// unusable bit positions, or address list not a multiple of 16 octets
pub const NOT_USABLE: usize = 28;

// bad label value
pub const LABEL_VALUE: usize = 29;

// bad label format
pub const LABEL_FORMAT: usize = 30;
