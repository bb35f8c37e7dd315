// The rules in their order: the frame, 13, the walk, 12.
ghost use Rattle.std.specs.Prelude.{◌≡◌};
ghost use Rattle.answers.specs.Verdicts.{verdict_of};
ghost use Rattle.forms.specs.Sized.{Sized};
ghost use Rattle.route_ordered.specs.Judged.{judge_as};

use answers::{Counts, Reason, Refusal};
use forms::Form;
use route_rules::{limited, not_agreed};
use session::Session;

// The answer on a route of a form, under the form's session and a setup type.
pub fn judge_as(
    form: Form,
    s: &[u8],
    ero: bool,
    session: Session,
    pst: u64,
) -> Result<Counts, Refusal>
    requires { Sized form }
    ensures judged { verdict_of result ≡ judge_as form s.now ero session pst }
{
    let count = frame_rules::framed(s, ero, usize::from(form.kind))?;
    if not_agreed(form, session.agreed, pst) {
        return Err(Reason::NotAgreed.into());
    }
    let w = route_walk::walk(form, s, ero, session.n, count);
    limited(w, s, ero, session.limit)
}
