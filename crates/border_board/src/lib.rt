// What changes the board, on a record whose parts are lent, over the records of the border (include/strundevi.h).
// A refusal writes nothing.
#![tactic(auto)]

mod taking;

ghost use Rattle.std.specs.Prelude.{◌≡◌};
ghost use Rattle.board_record.specs.Record.{empty_board};
ghost use Rattle.board_entry.specs.Parts.{board_in, SameParts};
ghost use Rattle.board_report_call.specs.Reported.{report_for_on, report_store_for_on};
ghost use Rattle.border_records.specs.Records.{verdict_out};
ghost use Rattle.border_session.specs.Agreed.{sessions_in};

use board_entry::Parts;
use board_record::{GROUPS, PLACES};
use border_records::VerdictRecord;
use border_session::SessionRecord;
pub use taking::{compact, remove};

// Makes the record that of the empty board.
pub fn empty(b: &mut Parts<'_>)
    ensures parts { SameParts b.new b.old }
    ensures empty { board_in b.new ≡ empty_board }
{
    *b.keys = [0; PLACES];
    *b.versions = [0; PLACES];
    *b.lengths = [0; PLACES];
    *b.version = 0;
    *b.floor = 0;
    *b.order = [0; PLACES];
    *b.tops = [0; GROUPS];
    *b.forms = [0; PLACES];
}

// Reports a path. The arguments are those that the paper names, as they cross the border one by one (include/strundevi.h).
pub fn report(
    b: &mut Parts<'_>,
    store: &mut [u8],
    key: u64,
    octets: &[u8],
    session: SessionRecord,
    pst: u64,
    addresses: &[u8],
) -> VerdictRecord
    ensures parts { SameParts b.new b.old }
    ensures answer { let told = report_for_on (board_in b.old) store.old key octets.now (sessions_in session) pst addresses.now in
        (result ≡ verdict_out told.verdict) × (board_in b.new ≡ told.board)
        × (store.new ≡ report_store_for_on (board_in b.old) store.old key octets.now (sessions_in session) pst addresses.now) }
{
    let sessions = border_session::sessions_in(session);
    let answer = board_report_call::report(b, store, key, octets, sessions, pst, addresses);
    border_records::answer_out(answer)
}
