// Report with the record by value (document 01, "The board"): it is handed back changed, with the counts of the route; after a refusal the
// caller's is as it was. The record's arrays are lent to the call of board_report_call.
#![tactic(auto)]

ghost use Rattle.std.specs.Prelude.{◌≡◌};
ghost use Rattle.board_report_by_value.specs.ByValue.{counted_back_of, report_by_value, report_store_by_value};

use answers::{Counts, Refusal};
use board_entry::Parts;
use board_record::Board;
use session::Sessions;

// Report (key, ERO, the two sessions, PST, addresses). The arguments are those that the paper names: a struct of some of them would be made for this call and
// taken apart in it.
pub fn report(
    b: Board,
    store: &mut [u8],
    key: u64,
    octets: &[u8],
    sessions: Sessions,
    pst: u64,
    addresses: &[u8],
) -> Result<(Board, Counts), Refusal>
    ensures answer { counted_back_of b result ≡ report_by_value b store.old key octets.now sessions pst addresses.now }
    ensures stored { store.new ≡ report_store_by_value b store.old key octets.now sessions pst addresses.now }
{
    let mut stored = b;
    let lent = &mut stored;
    let mut parts = Parts {
        keys: &mut lent.keys,
        versions: &mut lent.versions,
        lengths: &mut lent.lengths,
        version: &mut lent.version,
        floor: &mut lent.floor,
        order: &mut lent.order,
        tops: &mut lent.tops,
        forms: &mut lent.forms,
    };
    let counts = board_report_call::report(
        &mut parts, store, key, octets, sessions, pst, addresses,
    )?;
    Ok((stored, counts))
}
