// The board's calls, on a record whose parts are lent one by one. A refusal writes nothing.
ghost use Rattle.std.specs.Prelude.{◌≡◌};
ghost use Rattle.board_record.specs.Record.{board_of, empty_board};
ghost use Rattle.octets.specs.Octets.{part};
ghost use Rattle.board_rules.specs.OnRecord.{remove_on, compact_on, body_on, body_form_on, next_on, moved_on};
ghost use Rattle.board_report_call.specs.Reported.{report_for_on, report_store_for_on};
ghost use Rattle.border_records.specs.Records.{verdict_out};
ghost use Rattle.border_session.specs.Agreed.{sessions_in};
ghost use Rattle.border_answers.specs.AnswersOut.{change_out};
ghost use Rattle.border_looks.specs.Looks.{part_out, fresh_out};

use board_record::Lent;
use border_answers::ChangeRecord;
use border_looks::{MarkRecord, PartRecord};
use border_records::VerdictRecord;
use border_session::SessionRecord;

// Makes the record that of the empty board.
#[unsafe(no_mangle)]
pub extern "C" fn strundevi_raw_empty(
    keys: &mut [u32; 128],
    versions: &mut [u64; 128],
    lengths: &mut [u16; 128],
    version: &mut u64,
    floor: &mut u64,
    order: &mut [u8; 128],
    tops: &mut [u64; 16],
    forms: &mut [u8; 128],
)
    ensures empty { let after = board_of keys.new versions.new lengths.new version.new floor.new order.new tops.new forms.new in
        after ≡ empty_board }
{
    let mut parts = board_entry::Parts {
        keys,
        versions,
        lengths,
        version,
        floor,
        order,
        tops,
        forms,
    };
    border_board::empty(&mut parts);
}

// Reports a path.
#[unsafe(no_mangle)]
pub extern "C" fn strundevi_raw_report(
    keys: &mut [u32; 128],
    versions: &mut [u64; 128],
    lengths: &mut [u16; 128],
    version: &mut u64,
    floor: &mut u64,
    order: &mut [u8; 128],
    tops: &mut [u64; 16],
    forms: &mut [u8; 128],
    store: &mut [u8],
    key: u64,
    octets: &[u8],
    session: SessionRecord,
    pst: u64,
    addresses: &[u8],
) -> VerdictRecord
    ensures answer { let before =
        board_of keys.old versions.old lengths.old version.old floor.old order.old tops.old forms.old in
        let after =
        board_of keys.new versions.new lengths.new version.new floor.new order.new tops.new forms.new in
        (result ≡ verdict_out (report_for_on before store.old key octets.now (sessions_in session) pst addresses.now).verdict)
        × (after ≡ (report_for_on before store.old key octets.now (sessions_in session) pst addresses.now).board)
        × (store.new ≡ report_store_for_on before store.old key octets.now (sessions_in session) pst addresses.now) }
{
    let mut parts = board_entry::Parts {
        keys,
        versions,
        lengths,
        version,
        floor,
        order,
        tops,
        forms,
    };
    border_board::report(&mut parts, store, key, octets, session, pst, addresses)
}

// Removes a path; its mark stays.
#[unsafe(no_mangle)]
pub extern "C" fn strundevi_raw_remove(
    keys: &[u32; 128],
    versions: &mut [u64; 128],
    lengths: &mut [u16; 128],
    version: &mut u64,
    floor: u64,
    order: &mut [u8; 128],
    tops: &mut [u64; 16],
    forms: &mut [u8; 128],
    store: &[u8],
    key: u64,
) -> VerdictRecord
    ensures answer { let before =
        board_of keys.now versions.old lengths.old version.old floor order.old tops.old forms.old in
        let after =
        board_of keys.now versions.new lengths.new version.new floor order.new tops.new forms.new in
        (result ≡ verdict_out (remove_on before store.now key).verdict)
        × (after ≡ (remove_on before store.now key).board) }
{
    let mut parts = board_remove::Parts {
        keys,
        versions,
        lengths,
        version,
        floor,
        order,
        tops,
        forms,
    };
    border_board::remove(&mut parts, store, key)
}

// Drops the marks with version at most c.
#[unsafe(no_mangle)]
pub extern "C" fn strundevi_raw_compact<'a>(
    keys: &mut [u32; 128],
    versions: &mut [u64; 128],
    lengths: &'a [u16; 128],
    version: u64,
    floor: &mut u64,
    order: &mut [u8; 128],
    tops: &mut [u64; 16],
    forms: &'a [u8; 128],
    store: &[u8],
    c: u64,
) -> VerdictRecord
    ensures answer { let before =
        board_of keys.old versions.old lengths.now version floor.old order.old tops.old forms.now in
        let after =
        board_of keys.new versions.new lengths.now version floor.new order.new tops.new forms.now in
        (result ≡ verdict_out (compact_on before store.now c).verdict)
        × (after ≡ (compact_on before store.now c).board) }
{
    let mut parts = board_compact::Parts {
        keys,
        versions,
        lengths,
        version,
        floor,
        order,
        tops,
        forms,
    };
    border_board::compact(&mut parts, store, c)
}

// Where the octets of a key's path lie, and its form.
#[unsafe(no_mangle)]
pub extern "C" fn strundevi_raw_body<'a>(
    keys: &'a [u32; 128],
    versions: &'a [u64; 128],
    lengths: &'a [u16; 128],
    version: u64,
    floor: u64,
    order: &'a [u8; 128],
    tops: &'a [u64; 16],
    forms: &'a [u8; 128],
    store: &[u8],
    key: u64,
) -> PartRecord
    ensures answer { let b =
        board_of keys.now versions.now lengths.now version floor order.now tops.now forms.now in
        (result ≡ part_out b store.now key)
        × (part store.now result.start result.length ≡ body_on b store.now key)
        × (result.form ≡ body_form_on b store.now key) }
{
    let lent = Lent {
        keys,
        versions,
        lengths,
        version,
        floor,
        order,
        tops,
        forms,
    };
    border_looks::body(lent, store, key)
}

// What a follower with the mark (s, w) is handed.
#[unsafe(no_mangle)]
pub extern "C" fn strundevi_raw_next<'a>(
    keys: &'a [u32; 128],
    versions: &'a [u64; 128],
    lengths: &'a [u16; 128],
    version: u64,
    floor: u64,
    order: &'a [u8; 128],
    tops: &'a [u64; 16],
    forms: &'a [u8; 128],
    store: &[u8],
    s: u64,
    w: u64,
) -> ChangeRecord
    ensures next { let b = board_of keys.now versions.now lengths.now version floor order.now tops.now forms.now in
        result ≡ change_out (next_on b store.now s w) }
{
    let lent = Lent {
        keys,
        versions,
        lengths,
        version,
        floor,
        order,
        tops,
        forms,
    };
    border_looks::next(lent, store, s, w)
}

// Whether a key from `from` to `to` changed after version v: the count is 1 for yes and 0 for no.
#[unsafe(no_mangle)]
pub extern "C" fn strundevi_raw_moved<'a>(
    keys: &'a [u32; 128],
    versions: &'a [u64; 128],
    lengths: &'a [u16; 128],
    version: u64,
    floor: u64,
    order: &'a [u8; 128],
    tops: &'a [u64; 16],
    forms: &'a [u8; 128],
    store: &[u8],
    from: u64,
    to: u64,
    v: u64,
) -> VerdictRecord
    ensures moved { let b = board_of keys.now versions.now lengths.now version floor order.now tops.now forms.now in
        result ≡ verdict_out (moved_on b store.now from to v) }
{
    let lent = Lent {
        keys,
        versions,
        lengths,
        version,
        floor,
        order,
        tops,
        forms,
    };
    border_looks::moved(lent, store, from, to, v)
}

// The mark of a follower that begins, and holds nothing, on a board of this version.
#[unsafe(no_mangle)]
pub extern "C" fn strundevi_raw_fresh_mark(version: u64) -> MarkRecord
    ensures mark { result ≡ fresh_out version }
{
    border_looks::fresh_mark(version)
}
