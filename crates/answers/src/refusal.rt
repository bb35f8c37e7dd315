// What a call that refuses answers, and what one that accepts a route counts.
ghost use Rattle.std.specs.Prelude.{◌≡◌};
ghost use Rattle.answers.specs.Verdicts.{verdict_of};

use super::reason::Reason;
use super::verdict::Verdict;

// A refusal has a reason, and a place: 0 where none is named.
#[derive(Clone, Copy, Debug, PartialEq, Eq)]
pub struct Refusal {
    pub reason: Reason,
    pub place: usize,
}

// The segments of a route that is accepted, and how many of them are stray.
#[derive(Clone, Copy, Debug, PartialEq, Eq)]
pub struct Counts {
    pub count: usize,
    pub stray: usize,
}

// A reason by itself names no place.
impl From<Reason> for Refusal {
    ghost from_gives = { λ reason refusal. refusal ≡ record { reason = reason; place = 0 } };

    fn from(reason: Reason) -> Refusal {
        Refusal { reason, place: 0 }
    }
}

// The same answer as one record.
pub fn told(answer: Result<Counts, Refusal>) -> Verdict
    ensures told { result ≡ verdict_of answer }
{
    match answer {
        Ok(counts) => super::verdict::carrying(counts.count, counts.stray),
        Err(refusal) => super::verdict::refused(refusal.reason.number(), refusal.place),
    }
}
