// Where in the order a version lies, by halving: versions rise along it.
ghost use Rattle.std.specs.Prelude.{◌≡◌};
ghost use Rattle.board_record.specs.Order.{Rises};
ghost use Rattle.board_order.specs.Above.{first_above};

use super::naming::place_of;
use board_record::Lent;

// The first number of the order that is no place or whose version is above w; 128, the order's end, where there is none.
pub fn first_above(b: Lent<'_>, w: u64) -> usize
    requires { Rises b.versions.now b.order.now }
    ensures first { result ≡ first_above b.entry.versions.now b.entry.order.now w }
{
    let Lent {
        versions,
        order,
        ..
    } = b;
    order.partition_point(|n| match place_of(*n) {
        Some(p) => versions[p] <= w,
        None => false,
    })
}
