// Judging a route, asking for its segments, and stepping through it. `ero` is a flag: an ERO, else an RRO.
ghost use Rattle.std.specs.Prelude.{◌≡◌};
ghost use Rattle.route_call.specs.Called.{judged_for, segment_for};
ghost use Rattle.border_records.specs.Records.{is_yes, verdict_out};
ghost use Rattle.border_session.specs.Agreed.{sessions_in};
ghost use Rattle.route_step.specs.Steps.{step_of};
ghost use Rattle.border_segment.specs.Segments.{picked_out, stepped_out};

use border_records::VerdictRecord;
use border_segment::{PickedRecord, SteppedRecord};
use border_session::SessionRecord;

// The verdict on a route under the sessions and a setup type.
#[unsafe(no_mangle)]
pub extern "C" fn strundevi_raw_judge(
    octets: &[u8],
    ero: u8,
    session: SessionRecord,
    pst: u64,
    addresses: &[u8],
) -> VerdictRecord
    ensures judged { result ≡ verdict_out (judged_for octets.now (is_yes ero) (sessions_in session) pst addresses.now) }
{
    border_routes::judge(octets, ero, session, pst, addresses)
}

// Segment i, from 0, of a route under the sessions and a setup type.
#[unsafe(no_mangle)]
pub extern "C" fn strundevi_raw_segment_at(
    octets: &[u8],
    ero: u8,
    session: SessionRecord,
    pst: u64,
    addresses: &[u8],
    i: u64,
) -> PickedRecord
    ensures picked { result ≡ picked_out (segment_for octets.now (is_yes ero) (sessions_in session) pst addresses.now i) }
{
    border_routes::segment_at(octets, ero, session, pst, addresses, i)
}

// The segment at a place of a route judged under a setup type, and the place behind it.
#[unsafe(no_mangle)]
pub extern "C" fn strundevi_raw_step(octets: &[u8], ero: u8, pst: u64, at: usize) -> SteppedRecord
    ensures stepped { result ≡ stepped_out (step_of octets.now (is_yes ero) pst at) }
{
    border_routes::step(octets, ero, pst, at)
}
