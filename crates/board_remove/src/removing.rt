// Remove (key): 17, 18, 22, 20. The removal stays as a mark: the key keeps its place, with length and form 0 and the version that
// the removal bears, goes to the end of the order, and that version is the largest of its group.
ghost use Rattle.std.specs.Prelude.{◌≡◌};
ghost use Rattle.answers.specs.Verdicts.{passed_of};
ghost use Rattle.board_rules.specs.OnRecord.{result_of, remove_on};
ghost use Rattle.board_remove.specs.Parts.{board_in, SameParts};

use super::parts::Parts;
use answers::{Reason, Refusal};
use board_order_moves::move_last;
use board_refusals::remove_rules;
use board_rule17::{is_board, path_place};
use board_tops::raise;

pub fn remove(b: &mut Parts<'_>, store: &[u8], key: u64) -> Result<(), Refusal>
    ensures parts { SameParts b.new b.old }
    ensures answer { result_of (passed_of result) (board_in b.new) ≡ remove_on (board_in b.old) store.now key }
{
    let lent = b.lent();
    if !is_board(lent, store.len()) {
        return Err(Reason::NotABoard.into());
    }
    let at = remove_rules(key, path_place(lent, key), *b.version)?;
    let next = *b.version + 1;
    move_last(
        b.keys, b.versions, b.lengths, *b.version, b.floor, b.order, b.forms, at,
    );
    raise(b.versions, b.tops, at, next);
    b.versions[at] = next;
    b.lengths[at] = 0;
    b.forms[at] = 0;
    *b.version = next;
    Ok(())
}
