// Whether a key of a range changed after a version. A group of places whose largest version is not above it is passed over.
ghost use Rattle.std.specs.Prelude.{◌≡◌, true, not, ◌&&◌, ◌+◌, ◌*◌, ◌<◌, eqb, ltb, leb};
ghost use Rattle.board_record.specs.Sizes.{group, groups};
ghost use Rattle.board_record.specs.Lists.{any_below};
ghost use Rattle.board_record.specs.Search.{moved_b, moved_in};
ghost use Rattle.board_record.specs.Tops.{in_tops};

use board_record::{GROUP, GROUPS, Lent};

// Whether a place with this key and version is used, its key in the range, and its version above v.
fn is_moved(k: u32, version: u64, from: u64, to: u64, v: u64) -> bool
    ensures moved { result ≡ (not (eqb k 0) && leb from k && leb k to && ltb v version) }
{
    let key = u64::from(k);
    key != 0 && from <= key && key <= to && v < version
}

// Whether group g has such a place.
fn in_group(b: Lent<'_>, g: usize, from: u64, to: u64, v: u64) -> bool
    requires { g < groups }
    ensures moved { result ≡ any_below (λ j. moved_b b.entry.keys.now b.entry.versions.now from to v (group * g + j)) group }
{
    for j in 0..GROUP {
        let i = GROUP * g + j;
        if is_moved(b.keys[i], b.versions[i], from, to, v) {
            return true;
        }
    }
    false
}

// Whether some place has one.
pub fn any_moved(b: Lent<'_>, from: u64, to: u64, v: u64) -> bool
    requires { in_tops b.versions.now b.tops.now ≡ true }
    ensures moved { result ≡ moved_in b.entry.keys.now b.entry.versions.now from to v }
{
    for g in 0..GROUPS {
        if b.tops[g] <= v {
            continue;
        }
        if in_group(b, g, from, to, v) {
            return true;
        }
    }
    false
}
