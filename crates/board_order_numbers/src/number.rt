// The version of a place that a number of the order names, behind the last one.
ghost use Rattle.std.specs.Prelude.{◌≡◌, ◌<◌, ◌≤◌, slice_index};
ghost use Rattle.board_record.specs.Sizes.{places};
ghost use Rattle.board_order_numbers.specs.Numbers.{late_b};

use board_record::Lent;

// Whether v, the version of place x, is above the last one and, of a removal, above the floor. `bound` is the larger of these two: a
// version above it is above both, which is one test.
pub fn late(b: Lent<'_>, x: usize, v: u64, last: u64, bound: u64) -> bool
    requires { (x < places) × (last ≤ bound) }
    ensures late { result ≡ late_b last bound v (slice_index b.entry.lengths.now x) }
{
    bound < v || last < v && b.lengths[x] != 0
}
