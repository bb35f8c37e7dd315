// Objects that lie one behind the other, each cut off by its own length field: octets 2 and 3, big-endian,
// counting the 4 octets of the header. Where too little is left, or the length is under 4, the object is
// all the rest (document 01, the checking program).
#![tactic(auto)]

ghost use Rattle.std.specs.Prelude.{◌≡◌, ◌≤◌, length};
ghost use Rattle.cut_objects.specs.Cutting.{cut_of, first_object, rest_objects};

use objects::{HEADER, LENGTH_PLACE};

// How many octets the first object has.
#[tactic(auto, unfolding(crate::specs::Cutting::cut_of))]
pub fn cut(s: &[u8]) -> usize
    ensures cut { (result ≡ cut_of s.now) × (result ≤ length s.now) }
{
    if s.len() < HEADER {
        return s.len();
    }
    let n = octets::read16(s, LENGTH_PLACE);
    if HEADER <= n && n <= s.len() {
        n
    } else {
        s.len()
    }
}

// The first object.
pub fn first(s: &[u8]) -> &[u8]
    ensures first { result.now ≡ first_object s.now }
{
    let n = cut(s);
    &s[..n]
}

// What lies behind it.
pub fn rest(s: &[u8]) -> &[u8]
    ensures rest { result.now ≡ rest_objects s.now }
{
    let n = cut(s);
    &s[n..]
}
