// The reasons of a refusal, each with the number that it carries (document 01, "Numbers answered"). What each says stands beside its constant.
ghost use Rattle.std.specs.Prelude.{◌≡◌};
ghost use Rattle.answers.specs.Reasons.{number_of};

use super::number::{
    ALL_PATHS, BODY_TOO_LONG, BUFFER_FULL, CAPABILITY_MISSING, FRAME_BROKEN, KEY_OUT_OF_RANGE,
    KINDS_MIXED, LABEL_FORMAT, LABEL_VALUE, LENGTH_WRONG, MARK_AHEAD, MARK_TOO_OLD, NAI_UNKNOWN,
    NO_PATH, NO_SUCH_SEGMENT, NONE_OF_FORM, NOT_A_BOARD, NOT_AGREED, NOT_USABLE, NOTHING_THERE,
    OPEN_MALFORMED, ROUTE_EMPTY, SID_NEEDED, STRUCTURE_TOO_LONG, TOO_MANY_SEGMENTS,
    VERSIONS_USED_UP, WRONG_MSD,
};

#[derive(Clone, Copy, Debug, PartialEq, Eq)]
pub enum Reason {
    OpenMalformed = OPEN_MALFORMED as isize,
    CapabilityMissing = CAPABILITY_MISSING as isize,
    WrongMsd = WRONG_MSD as isize,
    FrameBroken = FRAME_BROKEN as isize,
    RouteEmpty = ROUTE_EMPTY as isize,
    KindsMixed = KINDS_MIXED as isize,
    LengthWrong = LENGTH_WRONG as isize,
    NaiUnknown = NAI_UNKNOWN as isize,
    NothingThere = NOTHING_THERE as isize,
    SidNeeded = SID_NEEDED as isize,
    StructureTooLong = STRUCTURE_TOO_LONG as isize,
    TooManySegments = TOO_MANY_SEGMENTS as isize,
    NotAgreed = NOT_AGREED as isize,
    NoneOfForm = NONE_OF_FORM as isize,
    NoSuchSegment = NO_SUCH_SEGMENT as isize,
    BufferFull = BUFFER_FULL as isize,
    NotABoard = NOT_A_BOARD as isize,
    KeyOutOfRange = KEY_OUT_OF_RANGE as isize,
    BodyTooLong = BODY_TOO_LONG as isize,
    VersionsUsedUp = VERSIONS_USED_UP as isize,
    AllPaths = ALL_PATHS as isize,
    NoPath = NO_PATH as isize,
    MarkTooOld = MARK_TOO_OLD as isize,
    MarkAhead = MARK_AHEAD as isize,
    NotUsable = NOT_USABLE as isize,
    LabelValue = LABEL_VALUE as isize,
    LabelFormat = LABEL_FORMAT as isize,
}

impl Reason {
    // Its number.
    pub fn number(self) -> usize
        ensures number { result ≡ number_of self }
    {
        self as usize
    }
}
