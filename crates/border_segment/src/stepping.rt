// What a step through a route hands back.
ghost use Rattle.std.specs.Prelude.{◌≡◌};
ghost use Rattle.route_step.specs.Steps.{stepped_of};
ghost use Rattle.border_segment.specs.Segments.{stepped_out};

use super::segment;
use border_records::VerdictRecord;

// The verdict; accepted, the segment and the place behind it; refused, a segment of zeros and the place asked for.
#[repr(C)]
#[derive(Clone, Copy)]
pub struct SteppedRecord {
    pub verdict: VerdictRecord,
    pub segment: segment::SegmentRecord,
    pub next: usize,
}

// What a step answered.
pub fn stepped_out(x: route_step::Stepped) -> SteppedRecord
    ensures stepped { result ≡ stepped_out (stepped_of x) }
{
    SteppedRecord {
        verdict: border_records::passed_out(x.answer),
        segment: segment::segment_out(x.segment),
        next: x.next,
    }
}
