// The pass along the order. `heads` and `nexts` are the buckets of the keys so far, `last` is the version of the place before, `bound`
// the larger of that and the floor. As versions rise, the last one met in a group is its largest: `seen`.
ghost use Rattle.std.specs.Prelude.{◌≡◌, ◌&&◌, get_or, eqb};
ghost use Rattle.board_record.specs.Sizes.{groups};
ghost use Rattle.board_record.specs.Lent.{table_lent};
ghost use Rattle.board_record.specs.Proper.{proper_b, all_below};
ghost use Rattle.board_record.specs.Order.{in_order};
ghost use Rattle.board_record.specs.Tops.{in_tops};

use board_extent::extent;
use board_order::place_of;
use board_order_numbers::{SLOTS, bucketed, late};
use board_places::{bodies, low};
use board_record::{GROUP, GROUPS, Lent, PLACES, VERSION_MOST};
use board_unnamed::closed;

// Whether the largest versions met are those of the record. A function of its own, since the proof knows how long an array is of a parameter, and not of one
// that a field lends.
fn same(seen: &[u64; 16], tops: &[u64; 16]) -> bool
    ensures same { result ≡ all_below (λ g. eqb (get_or seen.now g 0) (get_or tops.now g 0)) groups }
{
    seen == tops
}

pub fn is_proper(b: Lent<'_>) -> bool
    ensures proper { let t = table_lent b.entry in
        result ≡ (proper_b t && in_order t b.entry.order.now && in_tops b.entry.versions.now b.entry.tops.now) }
{
    if b.version < b.floor {
        return false;
    }
    if VERSION_MOST < b.version {
        return false;
    }
    let m = extent(b);
    if !bodies(b, m) {
        return false;
    }
    if !low(b, m) {
        return false;
    }
    let mut heads = [0u8; SLOTS];
    let mut nexts = [0u8; PLACES];
    let mut seen = [0u64; GROUPS];
    let mut last: u64 = 0;
    let mut bound = b.floor;
    for i in 0..PLACES {
        let Some(x) = place_of(b.order[i]) else {
            if b.version < last {
                return false;
            }
            if !closed(b, m, i) {
                return false;
            }
            return same(&seen, b.tops);
        };
        let v = b.versions[x];
        if !late(b, x, v, last, bound) {
            return false;
        }
        if !bucketed(b, &mut heads, &mut nexts, i, b.keys[x]) {
            return false;
        }
        seen[x / GROUP] = v;
        last = v;
        bound = bound.max(v);
    }
    if b.version < last {
        return false;
    }
    same(&seen, b.tops)
}
