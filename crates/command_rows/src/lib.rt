// The rows of the table of commands by what they touch (console.md): routes that are asked about, what the session is
// made from, the writer, the board that changes, the board that is looked at.
#![tactic(auto)]

ghost use Rattle.std.specs.Prelude.{◌≡◌};
ghost use Rattle.command_rows.specs.Rows.{row_verb};

use command_forms::Verb;

// about a route under the session
#[derive(Clone, Copy, Debug, PartialEq, Eq)]
pub enum Asking {
    Ero,
    Rro,
    EroSegment,
    RroSegment,
}

// what later lines are read under
#[derive(Clone, Copy, Debug, PartialEq, Eq)]
pub enum Setting {
    Pcc,
    Pce,
    Positions,
    Addresses,
}

// about the writer
#[derive(Clone, Copy, Debug, PartialEq, Eq)]
pub enum Writing {
    Begin,
    Add,
    Finish,
    Lent,
}

// what may change the board
#[derive(Clone, Copy, Debug, PartialEq, Eq)]
pub enum Changing {
    Report,
    Remove,
    Compact,
}

// what the board says
#[derive(Clone, Copy, Debug, PartialEq, Eq)]
pub enum Looking {
    Body,
    Next,
    Moved,
    Mark,
    Board,
    Chain,
}

#[derive(Clone, Copy, Debug, PartialEq, Eq)]
pub enum Row {
    Skip,
    Bad,
    Asks(Asking),
    Sets(Setting),
    Writes(Writing),
    Changes(Changing),
    Looks(Looking),
}

// The row of a command.
pub fn row_of(verb: Verb) -> Row
    ensures row { row_verb result ≡ verb }
{
    match verb {
        Verb::Skip => Row::Skip,
        Verb::Bad => Row::Bad,
        Verb::Pcc => Row::Sets(Setting::Pcc),
        Verb::Pce => Row::Sets(Setting::Pce),
        Verb::Ero => Row::Asks(Asking::Ero),
        Verb::Rro => Row::Asks(Asking::Rro),
        Verb::EroSegment => Row::Asks(Asking::EroSegment),
        Verb::RroSegment => Row::Asks(Asking::RroSegment),
        Verb::Begin => Row::Writes(Writing::Begin),
        Verb::Add => Row::Writes(Writing::Add),
        Verb::Finish => Row::Writes(Writing::Finish),
        Verb::Lent => Row::Writes(Writing::Lent),
        Verb::Report => Row::Changes(Changing::Report),
        Verb::Remove => Row::Changes(Changing::Remove),
        Verb::Compact => Row::Changes(Changing::Compact),
        Verb::Body => Row::Looks(Looking::Body),
        Verb::Next => Row::Looks(Looking::Next),
        Verb::Mark => Row::Looks(Looking::Mark),
        Verb::Board => Row::Looks(Looking::Board),
        Verb::Chain => Row::Looks(Looking::Chain),
        Verb::Positions => Row::Sets(Setting::Positions),
        Verb::Addresses => Row::Sets(Setting::Addresses),
        Verb::Moved => Row::Looks(Looking::Moved),
    }
}
