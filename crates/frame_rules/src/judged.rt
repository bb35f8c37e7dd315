// The frame's rules, over what one pass gathers.
ghost use Rattle.std.specs.Prelude.{◌≡◌};
ghost use Rattle.answers.specs.Verdicts.{counted_of};
ghost use Rattle.frame.specs.Frames.{class_of, headed};
ghost use Rattle.frame.specs.Gathered.{frame_of};

use answers::{Reason, Refusal};

// The class that an object is asked for.
fn class(ero: bool) -> usize
    ensures class { result ≡ class_of ero }
{
    if ero {
        objects::ERO_CLASS
    } else {
        objects::RRO_CLASS
    }
}

// The object's own part of 4.
pub fn is_headed(s: &[u8], ero: bool) -> bool
    ensures headed { result ≡ headed s.now ero }
{
    let n = s.len();
    if n < objects::HEADER {
        return false;
    }
    if usize::from(s[objects::CLASS_PLACE]) != class(ero) {
        return false;
    }
    if usize::from(s[objects::TYPE_PLACE]) / objects::TYPE_WORTH != objects::OBJECT_TYPE {
        return false;
    }
    if octets::read16(s, objects::LENGTH_PLACE) != n {
        return false;
    }
    n % objects::UNIT == 0
}

// 4, 5, 6 and 14 for subobjects of the type `kind`; else how many subobjects there are.
pub fn framed(s: &[u8], ero: bool, kind: usize) -> Result<usize, Refusal>
    ensures framed { counted_of result ≡ frame_of s.now ero kind }
{
    if !is_headed(s, ero) {
        return Err(Reason::FrameBroken.into());
    }
    let first = subobject::kind(octets::octet(s, objects::HEADER), ero);
    let Some(g) = frame::look(s, ero, kind, first) else {
        return Err(Reason::FrameBroken.into());
    };
    if g.count == 0 {
        return Err(Reason::RouteEmpty.into());
    }
    if !g.any {
        return Err(Reason::NoneOfForm.into());
    }
    match g.other {
        Some(place) => Err(Refusal {
            reason: Reason::KindsMixed,
            place,
        }),
        None => Ok(g.count),
    }
}
