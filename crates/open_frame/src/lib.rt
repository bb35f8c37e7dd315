// The frame of an OPEN object: class (1 octet), type in the high 4 bits of the next octet (the low 4 are ignored), and a 2-octet length that counts the 4 header
// octets. OPEN is class 1, type 1; its body is an octet whose top 3 bits are the version, which must be 1, then keepalive, dead timer, session number, then TLVs.
#![tactic(auto)]

ghost use Rattle.std.specs.Prelude.{◌≡◌, true, ◌<◌, length};
ghost use Rattle.octets.specs.Octets.{end16};
ghost use Rattle.open_frame.specs.Framed.{framed};

use objects::{
    CLASS_PLACE, HEADER, LENGTH_PLACE, OBJECT_TYPE, OPEN_CLASS, TYPE_PLACE, TYPE_WORTH, UNIT,
};

const OPEN_VERSION: usize = 1;

// The places of the version and of the first TLV.
const VERSION_PLACE: usize = HEADER;

pub const TLVS_AT: usize = 8;

// What the lowest bit of the version is worth in its octet.
const VERSION_WORTH: usize = 32;

// Class, type, version and length are an OPEN's.
#[tactic(auto, unfolding(crate::specs::Framed::framed))]
pub fn is_framed(s: &[u8]) -> bool
    ensures framed { result ≡ framed s.now }
    ensures short { result ≡ true → length s.now < end16 }
{
    if s.len() < TLVS_AT {
        return false;
    }
    let class = octets::octet(s, CLASS_PLACE) == OPEN_CLASS;
    let kind = octets::octet(s, TYPE_PLACE) / TYPE_WORTH == OBJECT_TYPE;
    let version = octets::octet(s, VERSION_PLACE) / VERSION_WORTH == OPEN_VERSION;
    let same = octets::read16(s, LENGTH_PLACE) == s.len();
    class && kind && version && same && s.len() % UNIT == 0
}
