// The order in which the rules of a subobject are asked.
use answers::Reason;

pub const ORDER: [Reason; 7] = [
    Reason::NaiUnknown,
    Reason::NothingThere,
    Reason::LengthWrong,
    Reason::SidNeeded,
    Reason::StructureTooLong,
    Reason::LabelValue,
    Reason::LabelFormat,
];
