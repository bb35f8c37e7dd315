// The commands, their names, and what stands behind these (console.md, the table of commands).
ghost use Rattle.std.specs.Prelude.{◌≡◌};
ghost use Rattle.command_forms.specs.Forms.{kinds_of, verb_of};
ghost use Rattle.command_forms.specs.Names.{name_of};

use crate::kind::Kind;
use same_octets::same;

#[derive(Clone, Copy, Debug, PartialEq, Eq)]
pub enum Verb {
    // an empty line or a comment: answered by nothing
    Skip,
    // out of form
    Bad,
    Pcc,
    Pce,
    Ero,
    Rro,
    EroSegment,
    RroSegment,
    Begin,
    Add,
    Finish,
    Lent,
    Report,
    Remove,
    Compact,
    Body,
    Next,
    Mark,
    Board,
    Chain,
    Positions,
    Addresses,
    Moved,
}

pub const ERO: [u8; 3] = *b"ero";

pub const RRO: [u8; 3] = *b"rro";

// the commands that have a name
const VERBS: [Verb; 21] = [
    Verb::Pcc,
    Verb::Pce,
    Verb::Ero,
    Verb::Rro,
    Verb::EroSegment,
    Verb::RroSegment,
    Verb::Begin,
    Verb::Add,
    Verb::Finish,
    Verb::Lent,
    Verb::Report,
    Verb::Remove,
    Verb::Compact,
    Verb::Body,
    Verb::Next,
    Verb::Mark,
    Verb::Board,
    Verb::Chain,
    Verb::Positions,
    Verb::Addresses,
    Verb::Moved,
];

impl Verb {
    // Its name.
    fn name(self) -> &'static [u8]
        ensures name { result.now ≡ name_of self }
    {
        match self {
            Verb::Skip => b"",
            Verb::Bad => b"",
            Verb::Pcc => b"pcc",
            Verb::Pce => b"pce",
            Verb::Ero => b"ero",
            Verb::Rro => b"rro",
            Verb::EroSegment => b"ero-segment",
            Verb::RroSegment => b"rro-segment",
            Verb::Begin => b"begin",
            Verb::Add => b"add",
            Verb::Finish => b"finish",
            Verb::Lent => b"lent",
            Verb::Report => b"report",
            Verb::Remove => b"remove",
            Verb::Compact => b"compact",
            Verb::Body => b"body",
            Verb::Next => b"next",
            Verb::Mark => b"mark",
            Verb::Board => b"board",
            Verb::Chain => b"chain",
            Verb::Positions => b"positions",
            Verb::Addresses => b"addresses",
            Verb::Moved => b"moved",
        }
    }

    // The command that has this name; `Bad` where none has it.
    pub fn named(w: &[u8]) -> Verb
        ensures verb { result ≡ verb_of w.now }
    {
        for verb in VERBS {
            if same(w, verb.name()) {
                return verb;
            }
        }
        Verb::Bad
    }

    // The kinds of the words behind the name.
    pub fn kinds(self) -> &'static [Kind]
        ensures kinds { result.now ≡ kinds_of self }
    {
        match self {
            Verb::Skip => &[],
            Verb::Bad => &[],
            Verb::Pcc => &[Kind::Octets],
            Verb::Pce => &[Kind::Octets],
            Verb::Ero => &[Kind::Number, Kind::Octets],
            Verb::Rro => &[Kind::Number, Kind::Octets],
            Verb::EroSegment => &[Kind::Number, Kind::Number, Kind::Octets],
            Verb::RroSegment => &[Kind::Number, Kind::Number, Kind::Octets],
            Verb::Begin => &[Kind::Side, Kind::Number, Kind::Size],
            Verb::Add => &[
                Kind::Bit,
                Kind::Bit,
                Kind::Octet,
                Kind::TwoOctets,
                Kind::Sid,
                Kind::Nai,
                Kind::Structure,
                Kind::Bit,
                Kind::Bit,
            ],
            Verb::Finish => &[],
            Verb::Lent => &[],
            Verb::Report => &[Kind::Number, Kind::Number, Kind::Octets],
            Verb::Remove => &[Kind::Number],
            Verb::Compact => &[Kind::Number],
            Verb::Body => &[Kind::Number],
            Verb::Next => &[Kind::Number, Kind::Number],
            Verb::Mark => &[],
            Verb::Board => &[],
            Verb::Chain => &[],
            Verb::Positions => &[Kind::Number, Kind::Number],
            Verb::Addresses => &[Kind::Octets],
            Verb::Moved => &[Kind::Number, Kind::Number, Kind::Number],
        }
    }
}
