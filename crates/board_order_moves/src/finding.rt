// Where a number stands in the order.
ghost use Rattle.std.specs.Prelude.{◌≡◌, ◌<◌, IfSome};
ghost use Rattle.std.specs.Option.{unwrap_or};
ghost use Rattle.board_record.specs.Sizes.{places};
ghost use Rattle.board_record.specs.Search.{place_in};

use board_record::PLACES;

// no number of the order: 128, as an octet
const NOWHERE: u8 = PLACES as u8;

// The first number of the order that is `number`. The loop has no way out, and what it compares are octets, 128 for none, so that the compiler takes 16 numbers
// at a time: `position`, which takes them one by one, was measured at twice its time, a `fold` of least numbers along a `zip` at nine times.
pub fn found_in(order: &[u8; 128], number: u8) -> Option<usize>
    ensures found { unwrap_or result places ≡ place_in order.now number }
    ensures within { IfSome result (λ i. i < places) }
{
    let mut first = NOWHERE;
    for i in 0..PLACES {
        let at = if order[i] == number { i as u8 } else { NOWHERE };
        first = first.min(at);
    }
    if first < NOWHERE {
        Some(usize::from(first))
    } else {
        None
    }
}
