// Sub-TLV 26 holds 2 reserved octets, a flag octet and a depth (RFC 8664, section 4.1.2).
// N is the bit worth 2 and X the bit worth 1 of the flag octet.
//
// It must have length 4: else 1. X is 0 and so is the depth: 3.
// With X set the depth is not looked at, and there is no limit.
#![tactic(auto)]

ghost use Rattle.std.specs.Prelude.{◌≡◌};
ghost use Rattle.session.specs.Answered.{mpls_of};
ghost use Rattle.capability_mpls.specs.Mpls.{mpls_announced_of};

use answers::Reason;
use objects::MPLS_SETUP;
use session::{AtFault, MplsHalf, OpenRefusal};

// The type of the sub-TLV.
pub const MPLS_CAPABILITY: usize = 26;

// The number of the form at fault where its value breaks a rule.
pub const MPLS_FORM: usize = MPLS_SETUP as usize;

// 1: a wrong length. 3: neither X nor a depth.
const MALFORMED: OpenRefusal = OpenRefusal {
    reason: Reason::OpenMalformed,
    form: Some(AtFault::Mpls),
};

const DEPTHLESS: OpenRefusal = OpenRefusal {
    reason: Reason::WrongMsd,
    form: Some(AtFault::Mpls),
};

// The place of the flag octet, and what N and X are worth in it.
const MPLS_FLAGS_AT: usize = 2;

const MPLS_WORTH_N: usize = 2;

const MPLS_WORTH_X: usize = 1;

// The place of the depth, and the length.
const DEPTH_AT: usize = 3;

const MPLS_SIZE: usize = 4;

// What a side that lists setup type 1 announces by the value of its sub-TLV 26.
pub fn announced_mpls(w: &[u8]) -> Result<MplsHalf, OpenRefusal>
    ensures announced { mpls_of result ≡ mpls_announced_of w.now }
{
    if w.len() != MPLS_SIZE {
        return Err(MALFORMED);
    }
    let flags = octets::octet(w, MPLS_FLAGS_AT);
    let n = flags / MPLS_WORTH_N % 2 == 1;
    if flags / MPLS_WORTH_X % 2 == 1 {
        return Ok(MplsHalf { n, limit: None });
    }
    let depth = octets::octet(w, DEPTH_AT);
    if depth == 0 {
        return Err(DEPTHLESS);
    }
    Ok(MplsHalf {
        n,
        limit: Some(depth),
    })
}
