// The form at fault where a sub-TLV is; its number is its setup type (document 02, C-16).
ghost use Rattle.std.specs.Prelude.{◌≡◌};
ghost use Rattle.session.specs.AtFault.{fault_number};

use objects::{MPLS_SETUP, SRV6_SETUP};

#[derive(Clone, Copy, Debug, PartialEq, Eq)]
pub enum AtFault {
    Mpls,
    Srv6,
}

// The form at fault as a number, where none is.
pub const NO_FORM: usize = 0;

impl AtFault {
    // Its number.
    pub fn number(self) -> usize
        ensures number { result ≡ fault_number self }
    {
        match self {
            Self::Mpls => MPLS_SETUP as usize,
            Self::Srv6 => SRV6_SETUP as usize,
        }
    }
}
