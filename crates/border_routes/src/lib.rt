// Judging a route, asking for its segments and stepping through it, over the records of the border (include/strundevi.h). `ero` is a flag: an ERO, else an RRO.
#![tactic(auto)]

ghost use Rattle.std.specs.Prelude.{◌≡◌};
ghost use Rattle.answers.specs.Verdicts.{verdict_of};
ghost use Rattle.route_call.specs.Called.{judged_for, segment_for};
ghost use Rattle.border_records.specs.Records.{is_yes, verdict_out};
ghost use Rattle.border_session.specs.Agreed.{sessions_in};
ghost use Rattle.route_step.specs.Steps.{step_of};
ghost use Rattle.border_segment.specs.Segments.{picked_out, stepped_out};

use answers::{Counts, Refusal};
use border_records::VerdictRecord;
use border_segment::{PickedRecord, SteppedRecord};
use border_session::SessionRecord;

// The verdict on a route. MPLS's session has no flags; where neither of SRv6's is agreed v and m are not looked for.
fn judged(
    octets: &[u8],
    kind: bool,
    session: SessionRecord,
    pst: u64,
    addresses: &[u8],
) -> Result<Counts, Refusal>
    ensures judged { verdict_of result ≡ judged_for octets.now kind (sessions_in session) pst addresses.now }
{
    if pst == objects::MPLS_SETUP {
        return route_call::judge_plain(
            octets,
            kind,
            session.mpls != 0,
            session.mplsn != 0,
            border_records::short_in(session.mplslimited, session.mplslimit),
            pst,
            addresses,
        );
    }
    if border_session::flagged(session, pst) {
        let own = border_session::session_under(session, pst);
        return route_call::judge_in(octets, kind, own, pst, addresses);
    }
    route_call::judge_plain(
        octets,
        kind,
        session.agreed != 0,
        session.n != 0,
        border_records::short_in(session.limited, session.limit),
        pst,
        addresses,
    )
}

// The verdict on a route under a session and a setup type.
pub fn judge(
    octets: &[u8],
    ero: u8,
    session: SessionRecord,
    pst: u64,
    addresses: &[u8],
) -> VerdictRecord
    ensures judged { result ≡ verdict_out (judged_for octets.now (is_yes ero) (sessions_in session) pst addresses.now) }
{
    border_records::answer_out(judged(octets, ero != 0, session, pst, addresses))
}

// Segment i, from 0, of a route under a session and a setup type.
pub fn segment_at(
    octets: &[u8],
    ero: u8,
    session: SessionRecord,
    pst: u64,
    addresses: &[u8],
    i: u64,
) -> PickedRecord
    ensures picked { result ≡ picked_out (segment_for octets.now (is_yes ero) (sessions_in session) pst addresses.now i) }
{
    let own = border_session::session_under(session, pst);
    border_segment::picked_out(route_call::segment_in(octets, ero != 0, own, pst, addresses, i))
}

// The segment at a place of a route judged under a setup type, and the place behind it.
pub fn step(octets: &[u8], ero: u8, pst: u64, at: usize) -> SteppedRecord
    ensures stepped { result ≡ stepped_out (step_of octets.now (is_yes ero) pst at) }
{
    border_segment::stepped_out(route_step::step(octets, ero != 0, pst, at))
}
