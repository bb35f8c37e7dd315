// A route judged for a head end whose addresses are lent (document 02, C-15 and C-16): 28, then the checks of document 01 in the session of
// the form that the setup type names, under the limit that holds for this route. In an RRO, and for MPLS, too a list that isn't a multiple
// of 16 octets is 28. Only SRv6's session has flags that raise the limit.
#![tactic(auto)]

ghost use Rattle.std.specs.Prelude.{◌≡◌};
ghost use Rattle.answers.specs.Verdicts.{verdict_of};
ghost use Rattle.route.specs.Parts.{session_by, picked_of};
ghost use Rattle.route_call.specs.Called.{judged_in, judged_for, segment_in, segment_for};

use answers::{Counts, Reason, Refusal};
use route::Picked;
use session::{Session, Sessions};

// The answer on a route in the session of the form that the setup type names. With neither flag agreed the session's own limit holds, and is
// handed on as it is.
pub fn judge_in(
    s: &[u8],
    ero: bool,
    own: Session,
    pst: u64,
    addresses: &[u8],
) -> Result<Counts, Refusal>
    ensures judged { verdict_of result ≡ judged_in s.now ero own pst addresses.now }
{
    if !head_end::usable(addresses) {
        return Err(Reason::NotUsable.into());
    }
    if !(own.a || own.r) {
        return route::judge(s, ero, own, pst);
    }
    let under = route_limit::session_for(s, ero, own, addresses);
    route::judge(s, ero, under, pst)
}

// The same in a session in which neither flag is agreed: its own limit holds. The session comes in its parts, seven parameters in all, so that it stays out of memory;
// as a record it is stored and loaded again on the way.
pub fn judge_plain(
    s: &[u8],
    ero: bool,
    agreed: bool,
    n: bool,
    limit: Option<usize>,
    pst: u64,
    addresses: &[u8],
) -> Result<Counts, Refusal>
    ensures judged { verdict_of result ≡ judged_in s.now ero (session_by agreed n limit) pst addresses.now }
{
    if !head_end::usable(addresses) {
        return Err(Reason::NotUsable.into());
    }
    route::judge_parts(s, ero, agreed, n, limit, pst)
}

// The same, under the sessions of both forms.
pub fn judge(
    s: &[u8],
    ero: bool,
    sessions: Sessions,
    pst: u64,
    addresses: &[u8],
) -> Result<Counts, Refusal>
    ensures judged { verdict_of result ≡ judged_for s.now ero sessions pst addresses.now }
{
    judge_in(s, ero, session::under(sessions, pst), pst, addresses)
}

// Segment i, from 0, of a route in the session of the form that the setup type names.
pub fn segment_in(
    s: &[u8],
    ero: bool,
    own: Session,
    pst: u64,
    addresses: &[u8],
    i: u64,
) -> Result<Picked, Refusal>
    ensures picked { picked_of result ≡ segment_in s.now ero own pst addresses.now i }
{
    if !head_end::usable(addresses) {
        return Err(Reason::NotUsable.into()); // before all others
    }
    let here = route_limit::session_for(s, ero, own, addresses);
    route::segment(s, ero, here, pst, i)
}

// The same, under the sessions of both forms.
pub fn segment(
    s: &[u8],
    ero: bool,
    sessions: Sessions,
    pst: u64,
    addresses: &[u8],
    i: u64,
) -> Result<Picked, Refusal>
    ensures picked { picked_of result ≡ segment_for s.now ero sessions pst addresses.now i }
{
    segment_in(s, ero, session::under(sessions, pst), pst, addresses, i)
}
