// Where a report goes: a key on the table keeps its place; a new key takes the lowest empty place; with none, that of the
// oldest removal, and the floor rises to that removal's version.
ghost use Rattle.std.specs.Prelude.{◌≡◌, true, ◌<◌, IfSome};
ghost use Rattle.std.specs.Option.{unwrap_or};
ghost use Rattle.board_record.specs.Sizes.{places};
ghost use Rattle.board_record.specs.Lent.{table_lent};
ghost use Rattle.board_record.specs.Search.{oldest_of, target_of, floor_after};
ghost use Rattle.board_record.specs.Proper.{proper_b};

use super::key::place_in;
use board_record::{Lent, PLACES};

// The place of the oldest removal.
fn oldest(b: Lent<'_>) -> Option<usize>
    requires { proper_b (table_lent b) ≡ true }
    ensures oldest { unwrap_or result places ≡ oldest_of (table_lent b.entry) }
    ensures within { IfSome result (λ i. i < places) }
{
    let mut best = None;
    for i in 0..PLACES {
        if b.lengths[i] != 0 || b.versions[i] == 0 {
            continue;
        }
        let Some(p) = best else {
            best = Some(i);
            continue;
        };
        if b.versions[i] < b.versions[p] {
            best = Some(i);
        }
    }
    best
}

// The place that a report of the key takes.
pub fn target(b: Lent<'_>, key: u64) -> Option<usize>
    requires { proper_b (table_lent b) ≡ true }
    ensures target { unwrap_or result places ≡ target_of (table_lent b.entry) key }
    ensures within { IfSome result (λ i. i < places) }
{
    if let Some(known) = place_in(b.keys, key) {
        return Some(known);
    }
    if let Some(free) = place_in(b.keys, 0) {
        return Some(free);
    }
    oldest(b)
}

// The floor after a report of the key at the place.
pub fn floor_after(b: Lent<'_>, key: u64, at: usize) -> u64
    requires { at < places }
    ensures floor { result ≡ floor_after (table_lent b.entry) key at }
{
    let old = u64::from(b.keys[at]);
    if old == 0 || old == key {
        return b.floor;
    }
    b.versions[at]
}
