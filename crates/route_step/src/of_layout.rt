// A step through a route of one form, which the compiler knows the numbers of.
ghost use Rattle.std.specs.Prelude.{◌≡◌};
ghost use Rattle.route_step.specs.Steps.{step_as, stepped_of};

use super::stepping::Stepped;
use forms::Layout;

// The segment at a place, and the place behind it.
pub fn step_in<L: Layout>(s: &[u8], ero: bool, at: usize) -> Stepped
    ensures stepped { stepped_of result ≡ step_as L.layout s.now ero at }
{
    match route_step_rules::verdict::<L>(s, ero, at) {
        Err(refusal) => Stepped {
            answer: Err(refusal),
            segment: subobject_read::no_segment(),
            next: at,
        },
        Ok(()) => {
            let h = subobject::head_at(L::form(), s, ero, at);
            Stepped {
                answer: Ok(()),
                segment: subobject_by_form::segment::<L>(h, s, at),
                next: at + h.size,
            }
        }
    }
}
