// What a call answers: a refusal with its number and place, or an acceptance with its counts
// (document 01, "Numbers answered": every refusal returns its number and place and no other content).
#![tactic(auto)]

mod number;
mod reason;
mod refusal;
mod verdict;

pub use number::{
    ALL_PATHS, BODY_TOO_LONG, BUFFER_FULL, CAPABILITY_MISSING, FRAME_BROKEN, KEY_OUT_OF_RANGE,
    KINDS_MIXED, LABEL_FORMAT, LABEL_VALUE, LENGTH_WRONG, MARK_AHEAD, MARK_TOO_OLD, NAI_UNKNOWN,
    NO_PATH, NO_SUCH_SEGMENT, NONE_OF_FORM, NOT_A_BOARD, NOT_AGREED, NOT_USABLE, NOTHING_THERE,
    OPEN_MALFORMED, ROUTE_EMPTY, SID_NEEDED, STRUCTURE_TOO_LONG, TOO_MANY_SEGMENTS,
    VERSIONS_USED_UP, WRONG_MSD,
};
pub use reason::Reason;
pub use refusal::{Counts, Refusal, told};
pub use verdict::{Verdict, accepted, carrying, refused};
