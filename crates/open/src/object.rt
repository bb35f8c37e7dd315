// An object starts with class (1 octet), type in the high 4 bits of the next octet (the low 4 are
// ignored), and a 2-octet length that counts the 4 header octets. OPEN is class 1, type 1; its body is an
// octet whose top 3 bits are the version, which must be 1, then keepalive, dead timer, session number,
// then TLVs.
//
// 28: unusable bit positions. 1: ill formed. 2: setup type 3 listed and no sub-TLV 27. 3: X is 0 and a pair's type is unknown.
// The order is 28, 1, 2, 3, and all of rule 1, to the last TLV, goes before 2 and 3. Setup type 1 asks for sub-TLV 26 as type 3
// asks for 27, and of each number 26's rule goes first. A refusal names the form at fault, 0 where no sub-TLV is (document 02, C-16).
ghost use Rattle.std.specs.Prelude.{◌≡◌};
ghost use Rattle.session.specs.Answered.{opened_of};
ghost use Rattle.open.specs.Open.{open_of};

use answers::Reason;
use capability::SRV6_CAPABILITY;
use capability_mpls::MPLS_CAPABILITY;
use flag_positions::Positions;
use open_carried::{MPLS, joined, listed, mpls_by, srv6_by};
use open_frame::{TLVS_AT, is_framed};
use open_walk::Values;
use session::{Carried, OpenRefusal};

// 28 and 1 name no form.
const UNUSABLE: OpenRefusal = OpenRefusal {
    reason: Reason::NotUsable,
    form: None,
};

const MALFORMED: OpenRefusal = OpenRefusal {
    reason: Reason::OpenMalformed,
    form: None,
};

// The answer to an OPEN object, with A and R at two positions: what it carries, or 28, 1, 2 or 3 with the form at fault. Sub-TLV 26 is looked for,
// in a walk of its own, only where setup type 1 is listed.
pub fn read_open(p: Positions, s: &[u8]) -> Result<Carried, OpenRefusal>
    ensures read { opened_of result ≡ open_of p s.now }
{
    if !flag_positions::usable(p) {
        return Err(UNUSABLE);
    }
    let malformed = Err(MALFORMED);
    if !is_framed(s) {
        return malformed;
    }
    let Some(Values { list, sub }) = open_walk::walk(s, false, SRV6_CAPABILITY, TLVS_AT, s.len())
    else {
        return malformed;
    };
    let srv6 = srv6_by(p, s, list, sub);
    if !listed(s, list, MPLS) {
        return Ok(Carried {
            srv6: srv6?,
            mpls: None,
        });
    }
    let Some(beside) = open_walk::walk(s, false, MPLS_CAPABILITY, TLVS_AT, s.len()) else {
        return malformed;
    };
    joined(mpls_by(s, beside.sub), srv6)
}
