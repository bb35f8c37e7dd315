// A number of the order names a place by 1 more than the place.
ghost use Rattle.std.specs.Prelude.{◌≡◌, ◌<◌, ◌≤◌, IfSome, IfNone, is_none, eqb};
ghost use Rattle.std.specs.Option.{unwrap_or};
ghost use Rattle.board_record.specs.Sizes.{places};
ghost use Rattle.board_record.specs.Order.{named};

use board_record::PLACES;

// What a number names, be it a place of the record or not; none for 0.
pub fn named(n: u8) -> Option<usize>
    ensures named { unwrap_or result places ≡ named n }
    ensures none { is_none result ≡ eqb n 0 }
{
    usize::from(n).checked_sub(1)
}

// The place that a number names; none for 0 and for a number above 128.
pub fn place_of(n: u8) -> Option<usize>
    ensures place { IfSome result (λ p. (p ≡ named n) × (p < places)) }
    ensures none { IfNone result (places ≤ named n) }
{
    // By the number, and not by `named(n).filter(..)`: of these two tests the compiler makes one.
    let number = usize::from(n);
    if number == 0 || PLACES < number {
        return None;
    }
    Some(number - 1)
}
