// The parts of a subobject, and the length that is expected of it.
ghost use Rattle.std.specs.Prelude.{◌≡◌, ◌+◌, ◌≤◌};
ghost use Rattle.subobject.specs.Layout.{sid_length, structure_there, expected_length};
ghost use Rattle.subobject.specs.Inner.{longest};

use forms::Form;

// what a segment keeps for an NAI and for a SID
pub const NAI_SIZE: usize = objects::NAI_SIZE;

pub const SID_SIZE: usize = objects::SID_SIZE;

// the length; NT and the 12 flags, and the lower eight of these
pub const SIZE_PLACE: usize = 1;

pub const FLAGS_PLACE: usize = 2;

pub const LOW_FLAGS_PLACE: usize = 3;

// the endpoint behaviour; the SID structure and its four bit lengths
pub const BEHAVIOUR_PLACE: usize = 6;

pub const STRUCTURE_SIZE: usize = 8;

pub const BIT_LENGTHS: usize = 4;

// what four bit lengths may sum to
pub const MOST_BITS: usize = 128;

// what the lowest bits of L and NT are worth in their octets
pub const WORTH_L: usize = 128;

pub const WORTH_NT: usize = 16;

// Whether a SID structure is there: T is 1 and S is 0. T is ignored where S is 1.
pub fn structure_there(s: usize, t: usize) -> bool
    ensures there { result ≡ structure_there s t }
{
    s == 0 && t == 1
}

// The octets of the SID: it is there if S is 0.
pub fn sid_length(form: Form, s: usize) -> usize
    ensures length { result ≡ sid_length form s }
{
    if s == 0 { usize::from(form.sid) } else { 0 }
}

// The sum: what is always there, and the octets of SID, NAI and structure, 0 for a part that is absent.
fn sum_of(fixed: usize, sid: usize, nai: usize, structure: usize) -> usize
    requires { fixed + sid + nai + structure ≤ longest }
    ensures sum { result ≡ fixed + sid + nai + structure }
{
    fixed + sid + nai + structure
}

// The expected length for NT, S and T: the fixed part plus the parts present, the SID's octets if S is 0, the NAI's, the structure's 8 if T is 1
// and S is 0. The tests stand outside the sum, since the compiler then looks it up by NT.
pub fn expected(form: Form, nt: usize, s: usize, t: usize) -> usize
    ensures length { (result ≡ expected_length form nt s t) × (result ≤ longest) }
{
    let fixed = usize::from(form.fixed);
    let sid = usize::from(form.sid);
    if structure_there(s, t) {
        return sum_of(fixed, sid, forms::nai_length(form, nt), STRUCTURE_SIZE);
    }
    if s == 0 {
        return sum_of(fixed, sid, forms::nai_length(form, nt), 0);
    }
    sum_of(fixed, 0, forms::nai_length(form, nt), 0)
}
