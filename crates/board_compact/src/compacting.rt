// Compact (c): 17, 24 if c is above the version. Drops the marks with version at most c; the floor becomes c if that is
// higher, what was dropped is off the order, and the largest version of its group may be lower. A mark has neither length nor
// form, so these stay.
ghost use Rattle.std.specs.Prelude.{◌≡◌};
ghost use Rattle.answers.specs.Verdicts.{passed_of};
ghost use Rattle.board_rules.specs.OnRecord.{result_of, compact_on};
ghost use Rattle.board_compact.specs.Parts.{board_in, SameParts};

use super::parts::Parts;
use answers::{Reason, Refusal};
use board_order_drops::drop_empty;
use board_refusals::compact_rules;
use board_rule17::is_board;
use board_sweep::sweep;
use board_tops::work_out;

pub fn compact(b: &mut Parts<'_>, store: &[u8], c: u64) -> Result<(), Refusal>
    ensures parts { SameParts b.new b.old }
    ensures answer { result_of (passed_of result) (board_in b.new) ≡ compact_on (board_in b.old) store.now c }
{
    if !is_board(b.lent(), store.len()) {
        return Err(Reason::NotABoard.into());
    }
    compact_rules(c, b.version)?;
    let dropped = sweep(b.keys, b.versions, b.lengths, c);
    *b.floor = (*b.floor).max(c);
    drop_empty(
        b.keys, b.versions, b.lengths, b.version, *b.floor, b.order, b.forms, dropped,
    );
    work_out(b.versions, b.tops, dropped);
    Ok(())
}
