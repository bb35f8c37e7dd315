// What takes a path or marks away, on a record whose parts are lent. A refusal writes nothing.
ghost use Rattle.std.specs.Prelude.{◌≡◌};
ghost use Rattle.board_rules.specs.OnRecord.{remove_on, compact_on};
ghost use Rattle.board_remove.specs.Parts as removal;
ghost use Rattle.board_compact.specs.Parts as compaction;
ghost use Rattle.border_records.specs.Records.{verdict_out};

use border_records::VerdictRecord;

// Removes a path; its mark stays.
pub fn remove(b: &mut board_remove::Parts<'_>, store: &[u8], key: u64) -> VerdictRecord
    ensures parts { removal.SameParts b.new b.old }
    ensures answer { let told = remove_on (removal.board_in b.old) store.now key in
        (result ≡ verdict_out told.verdict) × (removal.board_in b.new ≡ told.board) }
{
    let answer = board_remove::remove(b, store, key);
    border_records::passed_out(answer)
}

// Drops the marks with version at most c.
pub fn compact(b: &mut board_compact::Parts<'_>, store: &[u8], c: u64) -> VerdictRecord
    ensures parts { compaction.SameParts b.new b.old }
    ensures answer { let told = compact_on (compaction.board_in b.old) store.now c in
        (result ≡ verdict_out told.verdict) × (compaction.board_in b.new ≡ told.board) }
{
    let answer = board_compact::compact(b, store, c);
    border_records::passed_out(answer)
}
