// The next change for a mark: along the order from the oldest change above w, past removals that are not wanted.
ghost use Rattle.std.specs.Prelude.{◌≡◌, true, ◌<◌, IfSome};
ghost use Rattle.std.specs.Option.{unwrap_or};
ghost use Rattle.board_record.specs.Sizes.{places};
ghost use Rattle.board_record.specs.Lent.{table_lent};
ghost use Rattle.board_record.specs.Search.{next_of};
ghost use Rattle.board_record.specs.Proper.{proper_b};
ghost use Rattle.board_record.specs.Order.{in_order};

use board_order::{first_above, place_of};
use board_record::{Lent, PLACES};

// The place of the change of smallest version above w that is a path, or is a removal above s. Only used places are on the order, so
// no key is read.
pub fn next_place(b: Lent<'_>, s: u64, w: u64) -> Option<usize>
    requires { let t = table_lent b in (proper_b t ≡ true) × (in_order t b.order.now ≡ true) }
    ensures next { unwrap_or result places ≡ next_of (table_lent b.entry) s w }
    ensures within { IfSome result (λ i. i < places) }
{
    for i in first_above(b, w)..PLACES {
        let Some(p) = place_of(b.order[i]) else {
            return None;
        };
        if s < b.versions[p] {
            return Some(p);
        }
        if b.lengths[p] != 0 {
            return Some(p);
        }
    }
    None
}
