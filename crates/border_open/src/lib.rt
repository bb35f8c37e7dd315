// Reading an OPEN object, and the sessions of two answers, over the records of the border (include/strundevi.h).
#![tactic(auto)]

ghost use Rattle.std.specs.Prelude.{◌≡◌};
ghost use Rattle.session.specs.Sessions.{sessions_of};
ghost use Rattle.open.specs.Open.{open_of};
ghost use Rattle.border_opened.specs.Opens.{opened_in, opened_out, positions_in};
ghost use Rattle.border_session.specs.Agreed.{sessions_out};

use border_opened::{OpenedRecord, PositionsRecord};
use border_session::SessionRecord;

// What an OPEN object says, or 28, 1, 2 or 3.
pub fn read_open(positions: PositionsRecord, octets: &[u8]) -> OpenedRecord
    ensures opened { result ≡ opened_out (open_of (positions_in positions) octets.now) }
{
    let at = border_opened::positions_in(positions);
    border_opened::opened_out(open::read_open(at, octets))
}

// The sessions of the PCC's and the PCE's answers.
pub fn agree(pcc: OpenedRecord, pce: OpenedRecord) -> SessionRecord
    ensures sessions { result ≡ sessions_out (sessions_of (opened_in pcc) (opened_in pce)) }
{
    let first = border_opened::carried_in(pcc);
    let second = border_opened::carried_in(pce);
    border_session::sessions_out(session::agree(first, second))
}
