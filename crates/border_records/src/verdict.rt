// A verdict, field by field: a refusal's number and place, or an acceptance's counts.
ghost use Rattle.std.specs.Prelude.{◌≡◌};
ghost use Rattle.answers.specs.Verdicts.{verdict_of, passed_of};
ghost use Rattle.border_records.specs.Records.{verdict_out};

use answers::{Counts, Refusal};

#[repr(C)]
#[derive(Clone, Copy)]
pub struct VerdictRecord {
    pub number: usize,
    pub place: usize,
    pub count: usize,
    pub stray: usize,
}

// The answer of a call that counts.
pub fn answer_out(answer: Result<Counts, Refusal>) -> VerdictRecord
    ensures answer { result ≡ verdict_out (verdict_of answer) }
{
    match answer {
        Ok(counts) => VerdictRecord {
            number: 0,
            place: 0,
            count: counts.count,
            stray: counts.stray,
        },
        Err(refusal) => VerdictRecord {
            number: refusal.reason.number(),
            place: refusal.place,
            count: 0,
            stray: 0,
        },
    }
}

// The answer of a call that counts nothing.
pub fn passed_out(answer: Result<(), Refusal>) -> VerdictRecord
    ensures answer { result ≡ verdict_out (passed_of answer) }
{
    match answer {
        Ok(()) => answer_out(Ok(Counts { count: 0, stray: 0 })),
        Err(refusal) => answer_out(Err(refusal)),
    }
}
