// The answer to an OPEN object: what it carries of either form, or its refusal.
ghost use Rattle.std.specs.Prelude.{◌≡◌};
ghost use Rattle.session.specs.AtFault.{form_number};

use super::at_fault::{AtFault, NO_FORM};
use answers::{Reason, Refusal};

// What is carried of SRv6: N, how many segments a route may have, A and R, H.Encaps' v and Segments Left's m.
#[derive(Clone, Copy)]
pub struct Srv6Half {
    pub n: bool,
    pub limit: Option<usize>,
    pub a: bool,
    pub r: bool,
    pub v: Option<u8>,
    pub m: Option<u8>,
}

// What is carried of MPLS: N, and how many segments a route may have.
#[derive(Clone, Copy)]
pub struct MplsHalf {
    pub n: bool,
    pub limit: Option<usize>,
}

// What an OPEN that is accepted carries.
#[derive(Clone, Copy)]
pub struct Carried {
    pub srv6: Option<Srv6Half>,
    pub mpls: Option<MplsHalf>,
}

// Why an OPEN is refused, and the form at fault where a sub-TLV is.
#[derive(Clone, Copy)]
pub struct OpenRefusal {
    pub reason: Reason,
    pub form: Option<AtFault>,
}

impl OpenRefusal {
    // The form at fault as a number.
    pub fn form_number(self) -> usize
        ensures number { result ≡ form_number self.form }
    {
        match self.form {
            None => NO_FORM,
            Some(form) => form.number(),
        }
    }
}

// Among other refusals it names no place.
impl From<OpenRefusal> for Refusal {
    ghost from_gives = { λ refused refusal. refusal ≡ record { reason = refused.reason; place = 0 } };

    fn from(refused: OpenRefusal) -> Refusal {
        Refusal::from(refused.reason)
    }
}

// What a line or a record says of a form that is not carried.
pub const NO_SRV6: Srv6Half = Srv6Half {
    n: false,
    limit: None,
    a: false,
    r: false,
    v: None,
    m: None,
};

pub const NO_MPLS: MplsHalf = MplsHalf {
    n: false,
    limit: None,
};
