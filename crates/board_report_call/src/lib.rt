// Report on a record whose parts are lent, for a head end whose addresses are lent (document 02, C-15 and C-16): 28, then the
// report in the session of the form that the PST names, under the limit that holds for this route. A refusal writes nothing.
#![tactic(auto)]

ghost use Rattle.std.specs.Prelude.{◌≡◌};
ghost use Rattle.answers.specs.Verdicts.{verdict_of};
ghost use Rattle.board_rules.specs.OnRecord.{result_of};
ghost use Rattle.board_entry.specs.Parts.{board_in, SameParts};
ghost use Rattle.board_report_call.specs.Reported.{report_for_on, report_store_for_on};

use answers::{Counts, Reason, Refusal};
use board_entry::Parts;
use session::Sessions;

// Report (key, ERO, the two sessions, PST, addresses). The arguments are those that the paper names: a struct of some of them would be made for this call and
// taken apart in it.
pub fn report(
    b: &mut Parts<'_>,
    store: &mut [u8],
    key: u64,
    octets: &[u8],
    sessions: Sessions,
    pst: u64,
    addresses: &[u8],
) -> Result<Counts, Refusal>
    ensures parts { SameParts b.new b.old }
    ensures answer { (result_of (verdict_of result) (board_in b.new) ≡ report_for_on (board_in b.old) store.old key octets.now sessions pst addresses.now)
        × (store.new ≡ report_store_for_on (board_in b.old) store.old key octets.now sessions pst addresses.now) }
{
    if !head_end::usable(addresses) {
        return Err(Reason::NotUsable.into());
    }
    let own = session::under(sessions, pst);
    let here = route_limit::session_for(octets, true, own, addresses);
    board_report::report(b, store, key, octets, here, pst)
}
