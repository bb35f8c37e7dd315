// What one subobject says: L, V, NT, behaviour, SID or none, NAI, structure or none, M and C.
// Octets kept for a part that is absent or shorter are 0.
ghost use Rattle.std.specs.Prelude.{◌≡◌, ◌<◌};
ghost use Rattle.octets.specs.Octets.{end16};
ghost use Rattle.subobject.specs.Segments.{outline_of};

// A type takes no named length: 16 is SID_SIZE, 40 NAI_SIZE, 4 BIT_LENGTHS, here and wherever an array of them is made.
// A SID and a structure are no Options: octets may be given for a part that is absent, and the writer refuses what is not 0 in them (`writer_spare`).
#[derive(Clone, Copy)]
pub struct Segment {
    pub loose: bool,
    pub verify: bool,
    pub nt: u8,
    pub behaviour: u16,
    pub hassid: bool,
    pub sid: [u8; 16],
    pub nai: [u8; 40],
    pub structured: bool,
    pub structure: [u8; 4],
    pub labelled: bool,
    pub complete: bool,
}

// What a segment names beside its octets. The behaviour is a wide number, so that the compiler keeps the parts apart.
#[derive(Clone, Copy)]
pub struct Outline {
    pub loose: bool,
    pub verify: bool,
    pub nt: u8,
    pub behaviour: usize,
    pub hassid: bool,
    pub structured: bool,
    pub labelled: bool,
    pub complete: bool,
}

pub fn outline_of(g: Segment) -> Outline
    ensures outline { result ≡ outline_of g }
    ensures small { result.behaviour < end16 }
{
    Outline {
        loose: g.loose,
        verify: g.verify,
        nt: g.nt,
        behaviour: g.behaviour as usize,
        hassid: g.hassid,
        structured: g.structured,
        labelled: g.labelled,
        complete: g.complete,
    }
}
