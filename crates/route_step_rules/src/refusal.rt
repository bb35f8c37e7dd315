// A refusal as the answer of a step.
ghost use Rattle.std.specs.Prelude.{◌≡◌};
ghost use Rattle.answers.specs.Reasons.{number_of};
ghost use Rattle.answers.specs.Verdicts.{passed_of, refused_by};

use answers::{Reason, Refusal};

pub fn refused(reason: Reason, place: usize) -> Result<(), Refusal>
    ensures refused { passed_of result ≡ refused_by (number_of reason) place }
{
    Err(Refusal { reason, place })
}
