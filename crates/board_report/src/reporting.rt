// Report (key, ERO, session, PST): 17, 18, the route checks, 19, 20, 21. A key on the table, path or removal, keeps its
// place; a new key takes the lowest empty place; with none, that of the oldest removal, and the floor rises to that
// removal's version. The body, which is the ERO after its header, is written at the place's start, and
// the place goes to the end of the order; the new version is the largest of its group. The path's form is the PST: of an accepted
// route it is one of two.
ghost use Rattle.std.specs.Prelude.{◌≡◌};
ghost use Rattle.answers.specs.Verdicts.{verdict_of};
ghost use Rattle.board_rules.specs.OnRecord.{result_of, report_on, report_store_on};
ghost use Rattle.board_entry.specs.Parts.{board_in, SameParts};

use answers::{Counts, Reason, Refusal};
use board_entry::{Parts, enter};
use board_refusals::report_rules;
use board_rule17::{is_board, start_of};
use board_search::{floor_after, target};
use objects::HEADER;
use octets::lay;
use route::judge;
use session::Session;

pub fn report(
    b: &mut Parts<'_>,
    store: &mut [u8],
    key: u64,
    octets: &[u8],
    session: Session,
    pst: u64,
) -> Result<Counts, Refusal>
    ensures parts { SameParts b.new b.old }
    ensures answer { (result_of (verdict_of result) (board_in b.new) ≡ report_on (board_in b.old) store.old key octets.now session pst)
        × (store.new ≡ report_store_on (board_in b.old) store.old key octets.now session pst) }
{
    let lent = b.lent();
    if !is_board(lent, store.len()) {
        return Err(Reason::NotABoard.into());
    }
    let place = target(lent, key);
    let n = octets.len().saturating_sub(HEADER);
    let route = judge(octets, true, session, pst);
    let (at, counts) = report_rules(key, route, n, *b.version, place)?;
    let raised = floor_after(lent, key, at);
    enter(b, at, key as u32, n as u16, pst as u8, raised);
    lay(store, start_of(at), &octets[HEADER..]);
    Ok(counts)
}
