// A segment of an accepted route.
ghost use Rattle.std.specs.Prelude.{◌≡◌};
ghost use Rattle.forms.specs.Forms.{form_of};
ghost use Rattle.forms.specs.Sized.{Sized};
ghost use Rattle.route.specs.Parts.{picked_of};
ghost use Rattle.route.specs.Routes.{segment_as, segment_of};

use super::judgement::judge;
use answers::{Counts, Reason, Refusal};
use forms::Form;
use session::Session;
use subobject::Segment;
use subobject_strays::Strays;

// The counts of the route, with the segment and its strays.
#[derive(Clone, Copy)]
pub struct Picked {
    pub counts: Counts,
    pub segment: Segment,
    pub strays: Strays,
}

// Segment i, from 0, of a route of the form that the setup type names, under the form's session.
fn segment_as(
    form: Form,
    s: &[u8],
    ero: bool,
    session: Session,
    pst: u64,
    i: u64,
) -> Result<Picked, Refusal>
    requires { (Sized form) × (form ≡ form_of pst) }
    ensures picked { picked_of result ≡ segment_as form s.now ero session pst i }
{
    let counts = judge(s, ero, session, pst)?;
    if i >= counts.count as u64 {
        return Err(Reason::NoSuchSegment.into());
    }
    let at = frame::nth(s, i as usize);
    let strays = subobject_read::read_at(form, s, ero, at)?;
    let segment = subobject_read::segment_at(form, s, ero, at);
    Ok(Picked {
        counts,
        segment,
        strays,
    })
}

// The same, with the form found by the setup type, SRv6's if it names none.
pub fn segment(s: &[u8], ero: bool, session: Session, pst: u64, i: u64) -> Result<Picked, Refusal>
    ensures picked { picked_of result ≡ segment_of s.now ero session pst i }
{
    segment_as(forms::named(pst), s, ero, session, pst, i)
}
