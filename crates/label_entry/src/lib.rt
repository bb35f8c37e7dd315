// The label stack entry of an MPLS segment (document 02, C-16): 20 bits of label, 3 of TC, 1 of S, 8 of TTL.
#![tactic(auto)]

ghost use Rattle.std.specs.Prelude.{◌≡◌, ◌+◌, ◌<◌, length};
ghost use Rattle.subobject.specs.Rules.{label_at, time_at};

// what the lowest bit of a label stack entry's first and second octet is worth in the label, and that of the third octet which is in it
pub const FIRST_WORTH: usize = 4096;

pub const SECOND_WORTH: usize = 16;

pub const THIRD_PART: usize = 16;

// the place of the TTL in it
pub const TIME_PLACE: usize = 3;

// The label of the label stack entry at a place; octets past the end are 0.
#[tactic(auto, unfolding(subobject::specs::Rules::label_at))]
pub fn label_at(s: &[u8], at: usize) -> usize
    requires { at < length s.now + 128 }
    ensures label { result ≡ label_at s.now at }
{
    octets::octet(s, at) * FIRST_WORTH
        + octets::octet(s, at + 1) * SECOND_WORTH
        + octets::octet(s, at + 2) / THIRD_PART
}

// Its TTL.
#[tactic(auto, unfolding(subobject::specs::Rules::time_at))]
pub fn time_at(s: &[u8], at: usize) -> usize
    requires { at < length s.now + 128 }
    ensures time { result ≡ time_at s.now at }
{
    octets::octet(s, at + TIME_PLACE)
}
