// A segment. It is handed out whole; on the way in its octets are lent, and what it names beside them crosses as an outline.
// Octets kept for a part that is absent or shorter are 0 in an answer.
ghost use Rattle.std.specs.Prelude.{◌≡◌, ◌<◌};
ghost use Rattle.octets.specs.Octets.{end16};
ghost use Rattle.border_segment.specs.Segments.{outline_in, segment_out};

use subobject::{Outline, Segment};

#[repr(C)]
#[derive(Clone, Copy)]
pub struct SegmentRecord {
    pub loose: u8,
    pub verify: u8,
    pub nt: u8,
    pub behaviour: u16,
    pub hassid: u8,
    pub sid: [u8; 16],
    pub nai: [u8; 40],
    pub structured: u8,
    pub structure: [u8; 4],
    pub labelled: u8,
    pub complete: u8,
}

// M and C are one octet, in which M is worth 1 and C 2, so that an outline has 8 octets and crosses as one number.
#[repr(C)]
#[derive(Clone, Copy)]
pub struct OutlineRecord {
    pub loose: u8,
    pub verify: u8,
    pub nt: u8,
    pub label: u8,
    pub behaviour: u16,
    pub hassid: u8,
    pub structured: u8,
}

pub fn outline_in(o: OutlineRecord) -> Outline
    ensures outline { result ≡ outline_in o }
    ensures small { result.behaviour < end16 }
{
    Outline {
        loose: o.loose != 0,
        verify: o.verify != 0,
        nt: o.nt,
        behaviour: usize::from(o.behaviour),
        hassid: o.hassid != 0,
        structured: o.structured != 0,
        labelled: o.label % 2 == 1,
        complete: o.label / 2 % 2 == 1,
    }
}

pub fn segment_out(g: Segment) -> SegmentRecord
    ensures segment { result ≡ segment_out g }
{
    let Segment {
        sid,
        nai,
        structure,
        ..
    } = g;
    SegmentRecord {
        loose: u8::from(g.loose),
        verify: u8::from(g.verify),
        nt: g.nt,
        behaviour: g.behaviour,
        hassid: u8::from(g.hassid),
        sid,
        nai,
        structured: u8::from(g.structured),
        structure,
        labelled: u8::from(g.labelled),
        complete: u8::from(g.complete),
    }
}
