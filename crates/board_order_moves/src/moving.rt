// The order after a change: the place that holds it goes behind all others, from where it stood or, if it was empty, from
// nowhere.
ghost use Rattle.std.specs.Prelude.{◌≡◌, true, ℕ, ◌<◌, ◌≤◌};
ghost use Rattle.board_record.specs.Sizes.{places};
ghost use Rattle.board_record.specs.Table.{Entry, table_of, changed};
ghost use Rattle.board_record.specs.Proper.{proper_b};
ghost use Rattle.board_record.specs.Order.{order_of, in_order};
ghost use Rattle.board_order_moves.specs.Shifts.{shifted};

use super::finding::found_in;
use board_record::PLACES;

// Takes number `from` out of the order, moves those behind it up to `to` one up, and puts another at `to`.
fn shift(order: &mut [u8; 128], from: usize, to: usize, number: u8)
    requires { (from ≤ to) × (to < places) }
    ensures shifted { order.new ≡ shifted order.old from to number }
{
    // One by one: the library's method asks for `memmove` (`octets::copy`).
    for i in from..to {
        order[i] = order[i + 1];
    }
    order[to] = number;
}

// The order once place `at` holds a change of higher version than all others. The order is changed where it lies, so the rest of the
// record is lent beside it, part by part: a struct of them would be a `Lent` without its order, made for this call alone.
pub fn move_last<'a>(
    keys: &'a [u32; 128],
    versions: &'a [u64; 128],
    lengths: &'a [u16; 128],
    version: u64,
    floor: u64,
    order: &mut [u8; 128],
    forms: &'a [u8; 128],
    at: usize,
)
    requires { let b = table_of keys.now versions.now lengths.now version floor forms.now in
        (proper_b b ≡ true) × (in_order b order.old ≡ true) × (at < places) }
    ensures order { let b = table_of keys.now versions.now lengths.now version floor forms.now in
        ((e : Entry) (f : ℕ) → (e.key ≡ 0 → ⊥) → version < e.version → order.new ≡ order_of (changed b at e f)) }
{
    let used = found_in(order, 0).unwrap_or(PLACES);
    let number = (at + 1) as u8;
    match found_in(order, number) {
        Some(from) => shift(order, from, used - 1, number),
        None => shift(order, used, used, number),
    }
}
