// One step through a route.
ghost use Rattle.std.specs.Prelude.{◌≡◌};
ghost use Rattle.route_step.specs.Steps.{step_of, stepped_of};

use super::of_layout::step_in;
use answers::Refusal;
use forms::{Mpls, Srv6};
use subobject::Segment;

// Whether there is a segment, the segment, and the place behind it; after a refusal a segment of zeros, and the place asked for. They stand beside the result, and not in
// it: a result that holds a segment goes through memory, and a step takes 1.6 times as long.
#[derive(Clone, Copy)]
pub struct Stepped {
    pub answer: Result<(), Refusal>,
    pub segment: Segment,
    pub next: usize,
}

// The segment at a place and the place behind it, of the form that the setup type names, SRv6's if it names none.
pub fn step(s: &[u8], ero: bool, pst: u64, at: usize) -> Stepped
    ensures stepped { stepped_of result ≡ step_of s.now ero pst at }
{
    if pst == objects::MPLS_SETUP {
        return step_in::<Mpls>(s, ero, at);
    }
    step_in::<Srv6>(s, ero, at)
}
