// Next (mark s, w): 17; 24 if s or w is above the version; 23 exactly if the floor is above the larger of s and w; otherwise a
// change, or level. Moved (keys from a to b, version v): 17; 24 if v is above the version; 23 if the floor is above v; then
// yes exactly if a key of the range changed after v.
ghost use Rattle.std.specs.Prelude.{◌≡◌};
ghost use Rattle.board_record.specs.Lent.{board_lent};
ghost use Rattle.board_rules.specs.Handed.{handed_of};
ghost use Rattle.board_rules.specs.Moved.{told_of};
ghost use Rattle.board_rules.specs.OnRecord.{next_on, moved_on};

use answers::{Reason, Refusal};
use board_moved::any_moved;
use board_next::next_place;
use board_record::Lent;
use board_refusals::{moved_rules, next_rules};
use board_rule17::{is_board, path_at};
use board_rules::{Change, Handed};

// The next change for the mark (s, w).
pub fn next(b: Lent<'_>, store: &[u8], s: u64, w: u64) -> Result<Handed, Refusal>
    ensures next { handed_of result ≡ next_on (board_lent b.entry) store.now s w }
{
    if !is_board(b, store.len()) {
        return Err(Reason::NotABoard.into());
    }
    next_rules(s, w, b.version, b.floor)?;
    let Some(at) = next_place(b, s, w) else {
        return Ok(Handed::Level(b.version));
    };
    let change = Change {
        key: u64::from(b.keys[at]),
        version: b.versions[at],
    };
    if b.lengths[at] == 0 {
        return Ok(Handed::Removed(change));
    }
    Ok(Handed::Path(change, path_at(b, at)))
}

// Whether a key from `from` to `to` changed after version v.
pub fn moved(b: Lent<'_>, store: &[u8], from: u64, to: u64, v: u64) -> Result<bool, Refusal>
    ensures moved { told_of result ≡ moved_on (board_lent b.entry) store.now from to v }
{
    if !is_board(b, store.len()) {
        return Err(Reason::NotABoard.into());
    }
    moved_rules(v, b.version, b.floor)?;
    Ok(any_moved(b, from, to, v))
}
