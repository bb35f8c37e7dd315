// What asking for a segment hands back.
ghost use Rattle.std.specs.Prelude.{◌≡◌};
ghost use Rattle.route.specs.Parts.{picked_of};
ghost use Rattle.border_segment.specs.Segments.{picked_out};

use super::segment;
use answers::Refusal;
use border_records::VerdictRecord;

// The verdict, with the segment and what is set in its octets that ought to be 0 if it is an acceptance, else with zeros: the 12 flag bits with the
// assigned ones 0, the flag octet of the structure, and a flag that is 1 if a reserved octet was not 0.
#[repr(C)]
#[derive(Clone, Copy)]
pub struct PickedRecord {
    pub verdict: VerdictRecord,
    pub segment: segment::SegmentRecord,
    pub flags: u16,
    pub sflags: u8,
    pub reserved: u8,
}

pub fn picked_out(p: Result<route::Picked, Refusal>) -> PickedRecord
    ensures picked { result ≡ picked_out (picked_of p) }
{
    match p {
        Ok(picked) => PickedRecord {
            verdict: border_records::answer_out(Ok(picked.counts)),
            segment: segment::segment_out(picked.segment),
            flags: picked.strays.flags,
            sflags: picked.strays.structure,
            reserved: u8::from(picked.strays.reserved),
        },
        Err(refusal) => PickedRecord {
            verdict: border_records::answer_out(Err(refusal)),
            segment: segment::segment_out(subobject_read::no_segment()),
            flags: 0,
            sflags: 0,
            reserved: 0,
        },
    }
}
