// What a word behind a command's name may be (console.md, the table of commands).
ghost use Rattle.std.specs.Prelude.{◌≡◌};
ghost use Rattle.command_forms.specs.Forms.{fits};

use crate::verb::{ERO, RRO};
use decimal::{MOST_OCTET, MOST_TWO_OCTETS, at_most, is_number, is_structure};
use hexadecimal::{is_nai, is_octets, is_sid};
use same_octets::same;

// the most octets of a buffer
pub const MOST_SIZE: usize = 65536;

#[derive(Clone, Copy, Debug, PartialEq, Eq)]
pub enum Kind {
    // any number
    Number,
    // 0 or 1
    Bit,
    // 0 to 255
    Octet,
    // 0 to 65,535
    TwoOctets,
    // SIZE, 0 to 65,536
    Size,
    // OCTETS
    Octets,
    // `ero` or `rro`
    Side,
    Sid,
    Nai,
    Structure,
}

impl Kind {
    // Is this word of the kind?
    pub fn fits(self, w: &[u8]) -> bool
        ensures fits { result ≡ fits w.now self }
    {
        match self {
            Kind::Number => is_number(w),
            Kind::Bit => at_most(w, 1),
            Kind::Octet => at_most(w, MOST_OCTET),
            Kind::TwoOctets => at_most(w, MOST_TWO_OCTETS),
            Kind::Size => at_most(w, MOST_SIZE as u64),
            Kind::Octets => is_octets(w),
            Kind::Side => same(w, &ERO) || same(w, &RRO),
            Kind::Sid => is_sid(w),
            Kind::Nai => is_nai(w),
            Kind::Structure => is_structure(w),
        }
    }
}
