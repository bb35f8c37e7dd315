// What only looks at the board: a path's octets, what a follower is handed, and the mark it begins with, over the records of
// the border (include/strundevi.h).
#![tactic(auto)]

ghost use Rattle.std.specs.Prelude.{◌≡◌};
ghost use Rattle.octets.specs.Octets.{part};
ghost use Rattle.board_record.specs.Lent.{board_lent};
ghost use Rattle.board_rules.specs.OnRecord.{body_on, body_form_on, next_on, moved_on};
ghost use Rattle.border_answers.specs.AnswersOut.{change_out};
ghost use Rattle.border_records.specs.Records.{verdict_out};
ghost use Rattle.border_looks.specs.Looks.{part_out, fresh_out};

use answers::Counts;
use board_record::Lent;
use board_rule17::start_of;
use border_answers::{ChangeRecord, change_out};
use border_records::VerdictRecord;

// Where a path's octets lie in the store, and the path's form; a refusal has none.
#[repr(C)]
#[derive(Clone, Copy)]
pub struct PartRecord {
    pub number: usize,
    pub start: usize,
    pub length: usize,
    pub form: usize,
}

// A follower's mark.
#[repr(C)]
#[derive(Clone, Copy)]
pub struct MarkRecord {
    pub s: u64,
    pub w: u64,
}

// Where the octets of a key's path lie, and its form.
pub fn body(b: Lent<'_>, store: &[u8], key: u64) -> PartRecord
    ensures part { result ≡ part_out (board_lent b.entry) store.now key }
    ensures octets { part store.now result.start result.length ≡ body_on (board_lent b.entry) store.now key }
    ensures form { result.form ≡ body_form_on (board_lent b.entry) store.now key }
{
    match board_body::path(b, store, key) {
        Ok(path) => PartRecord {
            number: 0,
            start: start_of(path.place),
            length: path.length,
            form: path.form,
        },
        Err(refusal) => PartRecord {
            number: refusal.reason.number(),
            start: 0,
            length: 0,
            form: 0,
        },
    }
}

// What a follower with the mark (s, w) is handed.
pub fn next(b: Lent<'_>, store: &[u8], s: u64, w: u64) -> ChangeRecord
    ensures next { result ≡ change_out (next_on (board_lent b.entry) store.now s w) }
{
    change_out(board_look::next(b, store, s, w))
}

// Whether a key from `from` to `to` changed after version v: the count is 1 for yes and 0 for no.
pub fn moved(b: Lent<'_>, store: &[u8], from: u64, to: u64, v: u64) -> VerdictRecord
    ensures moved { result ≡ verdict_out (moved_on (board_lent b.entry) store.now from to v) }
{
    match board_look::moved(b, store, from, to, v) {
        Ok(yes) => border_records::answer_out(Ok(Counts {
            count: usize::from(yes),
            stray: 0,
        })),
        Err(refusal) => border_records::answer_out(Err(refusal)),
    }
}

// The mark of a follower that begins, and holds nothing, on a board of this version.
pub fn fresh_mark(version: u64) -> MarkRecord
    ensures mark { result ≡ fresh_out version }
{
    MarkRecord { s: version, w: 0 }
}
