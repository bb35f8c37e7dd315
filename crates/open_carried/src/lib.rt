// What the values of TLV 34 and of its sub-TLVs 26 and 27 carry: a form where its setup type is listed, 2 where its sub-TLV is not there, and both in one answer
// (document 01, "The OPEN object"; document 02, C-16).
#![tactic(auto)]

ghost use Rattle.std.specs.Prelude.{◌≡◌, length};
ghost use Rattle.tlvs.specs.Places.{Inside, value_at};
ghost use Rattle.open_walk.specs.Walk.{Listed};
ghost use Rattle.setup_types.specs.SetupTypes.{listed_in};
ghost use Rattle.session.specs.Answered.{opened_of, srv6_or_none_of, mpls_of};
ghost use Rattle.open_carried.specs.Carried.{mpls_announced_by, srv6_by, joined_of};

use answers::Reason;
use flag_positions::Positions;
use objects::{MPLS_SETUP, SRV6_SETUP};
use session::{AtFault, Carried, MplsHalf, OpenRefusal, Srv6Half};
use tlvs::Span;

// The setup types of the two forms, as they are listed.
pub const MPLS: u8 = MPLS_SETUP as u8;

const SRV6: u8 = SRV6_SETUP as u8;

// 2: a setup type is listed and its sub-TLV is not there.
const MPLS_MISSING: OpenRefusal = OpenRefusal {
    reason: Reason::CapabilityMissing,
    form: Some(AtFault::Mpls),
};

const SRV6_MISSING: OpenRefusal = OpenRefusal {
    reason: Reason::CapabilityMissing,
    form: Some(AtFault::Srv6),
};

// Whether a setup type is listed.
pub fn listed(s: &[u8], list: Option<Span>, kind: u8) -> bool
    requires { Listed s.now list }
    ensures listed { result ≡ listed_in (value_at s.now list) kind }
{
    match list {
        None => false,
        Some(list) => setup_types::lists(list.of(s), kind),
    }
}

// What the value found carries of MPLS, setup type 1 being listed.
pub fn mpls_by(s: &[u8], sub: Option<Span>) -> Result<MplsHalf, OpenRefusal>
    requires { Inside sub (length s.now) }
    ensures carried { mpls_of result ≡ mpls_announced_by (value_at s.now sub) }
{
    match sub {
        None => Err(MPLS_MISSING),
        Some(sub) => capability_mpls::announced_mpls(sub.of(s)),
    }
}

// What the values found carry of SRv6: nothing unless setup type 3 is listed.
pub fn srv6_by(
    p: Positions,
    s: &[u8],
    list: Option<Span>,
    sub: Option<Span>,
) -> Result<Option<Srv6Half>, OpenRefusal>
    requires { Listed s.now list × Inside sub (length s.now) }
    ensures carried { srv6_or_none_of result ≡ srv6_by p (value_at s.now list) (value_at s.now sub) }
{
    if !listed(s, list, SRV6) {
        return Ok(None);
    }
    match sub {
        None => Err(SRV6_MISSING),
        Some(sub) => Ok(Some(capability::announced(p, sub.of(s))?)),
    }
}

// Both in one answer. Of two refusals that by the smaller number goes first, MPLS's where they are equal.
pub fn joined(
    mpls: Result<MplsHalf, OpenRefusal>,
    srv6: Result<Option<Srv6Half>, OpenRefusal>,
) -> Result<Carried, OpenRefusal>
    ensures joined { opened_of result ≡ joined_of (mpls_of mpls) (srv6_or_none_of srv6) }
{
    match (mpls, srv6) {
        (Err(mpls), Err(srv6)) => {
            if srv6.reason.number() < mpls.reason.number() {
                return Err(srv6);
            }
            Err(mpls)
        }
        (Err(mpls), Ok(_)) => Err(mpls),
        (Ok(_), Err(srv6)) => Err(srv6),
        (Ok(mpls), Ok(srv6)) => Ok(Carried {
            srv6,
            mpls: Some(mpls),
        }),
    }
}
