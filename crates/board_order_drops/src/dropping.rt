// The order after a compaction: what is no used place any more is dropped from it, and the others stay in their order.
ghost use Rattle.std.specs.Prelude.{◌≡◌, true, false};
ghost use Rattle.board_record.specs.Table.{table_of};
ghost use Rattle.board_record.specs.Order.{order_of, in_order};
ghost use Rattle.board_order_drops.specs.Loose.{Loose};

use board_order::place_of;
use board_record::PLACES;

// The order of the table, whose used places stand in it by rising version, with others among them if `dropped` says so. The order is
// changed where it lies, so the rest of the record is lent beside it, part by part: a struct of them would be a `Lent` without its order, made for this call alone.
pub fn drop_empty<'a>(
    keys: &'a [u32; 128],
    versions: &'a [u64; 128],
    lengths: &'a [u16; 128],
    version: u64,
    floor: u64,
    order: &mut [u8; 128],
    forms: &'a [u8; 128],
    dropped: bool,
)
    requires { let b = table_of keys.now versions.now lengths.now version floor forms.now in
        Loose b order.old × (dropped ≡ false → in_order b order.old ≡ true) }
    ensures order { order.new ≡ order_of (table_of keys.now versions.now lengths.now version floor forms.now) }
{
    if !dropped {
        return;
    }
    let mut kept: usize = 0;
    for i in 0..PLACES {
        let number = order[i];
        if let Some(p) = place_of(number) {
            if keys[p] != 0 {
                order[kept] = number;
                kept += 1;
            }
        }
    }
    order[kept..].fill(0);
}
