// The limit that an ERO is judged by (document 02, C-15; document 001, section 5): one segment more where the first stays
// off the header.
//
// It stays off if both ends set R, or both set A and it is an adjacency of the head end: its NT is 4 or 6, and the first 16
// octets of its NAI, which are its local address, are one of the head end's addresses. Whether it has a SID is no matter.
// H.Encaps' v then permits v + 1; what Segments Left permits stays. Only SRv6's session has A and R, so the segment is read in SRv6's form.
#![tactic(auto)]

ghost use Rattle.std.specs.Prelude.{◌≡◌, ◌+◌, ◌≤◌};
ghost use Rattle.objects.specs.Objects.{header};
ghost use Rattle.forms.specs.Forms.{srv6_form, flag_in};
ghost use Rattle.subobject.specs.Layout.{nai_place};
ghost use Rattle.route_limit.specs.FirstOff.{is_adjacency, own_adjacency, limit_for, session_for};

use forms::{ADJACENCY, LINK_LOCAL};
use head_end::ADDRESS_SIZE;
use objects::HEADER;
use session::Session;
use subobject::{FLAGS_PLACE, LOW_FLAGS_PLACE, WORTH_NT};

// The places of NT and of the flags of the first segment.
const FIRST_NT: usize = HEADER + FLAGS_PLACE;

const FIRST_FLAGS: usize = HEADER + LOW_FLAGS_PLACE;

// Whether an NT is that of an adjacency.
#[tactic(auto, unfolding(crate::specs::FirstOff::is_adjacency))]
fn adjacency(nt: usize) -> bool
    ensures adjacency { result ≡ is_adjacency nt }
{
    nt == ADJACENCY || nt == LINK_LOCAL
}

// Where the local address of the first segment stands, by its flags: behind the SID if there is one.
fn local_place(flags: usize) -> usize
    ensures place { (result ≡ nai_place srv6_form (flag_in flags srv6_form.s) header) × (result ≤ header + srv6_form.fixed + srv6_form.sid) }
{
    let form = forms::srv6();
    HEADER + usize::from(form.fixed) + subobject::sid_length(form, forms::flag(flags, form.s))
}

// Whether the first segment is an adjacency of the head end. Octets that are not there count for nothing.
fn own_adjacency(s: &[u8], addresses: &[u8]) -> bool
    ensures own { result ≡ own_adjacency s.now addresses.now }
{
    if !adjacency(octets::octet(s, FIRST_NT) / WORTH_NT) {
        return false;
    }
    let at = local_place(octets::octet(s, FIRST_FLAGS));
    if s.len() < at + ADDRESS_SIZE {
        return false;
    }
    head_end::has(addresses, &s[at..at + ADDRESS_SIZE])
}

// The limit for a route. The addresses are looked at only where A decides: R is not agreed, and H.Encaps is there.
fn limit_for(s: &[u8], ero: bool, session: Session, addresses: &[u8]) -> Option<usize>
    ensures limit { result ≡ limit_for s.now ero session addresses.now }
{
    if !ero {
        return session.limit;
    }
    if session.r {
        return msd_limit::one_more(session.limit, session.v, session.m);
    }
    if !session.a {
        return session.limit;
    }
    if session.v.is_none() {
        return session.limit;
    }
    if own_adjacency(s, addresses) {
        return msd_limit::one_more(session.limit, session.v, session.m);
    }
    session.limit
}

// The session with the limit for a route.
#[tactic(auto, unfolding(crate::specs::FirstOff::session_for))]
pub fn session_for(s: &[u8], ero: bool, session: Session, addresses: &[u8]) -> Session
    ensures session { result ≡ session_for s.now ero session addresses.now }
{
    Session {
        limit: limit_for(s, ero, session, addresses),
        ..session
    }
}
