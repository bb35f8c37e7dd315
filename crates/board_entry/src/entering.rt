// The entry at a place, with the rows beside the table. The octets of the path are not its matter.
ghost use Rattle.std.specs.Prelude.{◌≡◌, true, ◌<◌};
ghost use Rattle.board_record.specs.Sizes.{places};
ghost use Rattle.board_record.specs.Table.{bearing, changed};
ghost use Rattle.board_record.specs.Proper.{proper_b};
ghost use Rattle.board_record.specs.Order.{order_of, in_order};
ghost use Rattle.board_record.specs.Tops.{tops_of, in_tops};
ghost use Rattle.board_entry.specs.Parts.{table_in, SameParts};

use super::parts::Parts;
use board_order_moves::move_last;
use board_tops::raise;

// Place `at` of a board becomes a path of n octets in the form, of the key, which bears the next version; the floor is `raised`.
pub fn enter(b: &mut Parts<'_>, at: usize, key: u32, n: u16, form: u8, raised: u64)
    requires { let t = table_in b.old in
        (proper_b t ≡ true) × (in_order t b.old.order.now ≡ true) × (in_tops b.old.versions.now b.old.tops.now ≡ true) × (at < places) × (key ≡ 0 → ⊥) }
    ensures parts { SameParts b.new b.old }
    ensures table { let t = table_in b.old in table_in b.new ≡ changed t at (bearing t key n form) raised }
    ensures rows { (b.new.order.now ≡ order_of (table_in b.new)) × (b.new.tops.now ≡ tops_of b.new.versions.now) }
{
    let version = *b.version;
    let floor = *b.floor;
    let next = version + 1;
    let order = &mut *b.order;
    move_last(
        b.keys, b.versions, b.lengths, version, floor, order, b.forms, at,
    );
    let tops = &mut *b.tops;
    raise(b.versions, tops, at, next);
    b.keys[at] = key;
    b.versions[at] = next;
    b.lengths[at] = n;
    b.forms[at] = form;
    *b.version = next;
    *b.floor = raised;
}
