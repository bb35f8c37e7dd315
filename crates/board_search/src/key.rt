// The place of a key. Key 0 stands for an empty place, so its place is the lowest empty one.
ghost use Rattle.std.specs.Prelude.{◌≡◌, ◌<◌, IfSome};
ghost use Rattle.std.specs.Option.{unwrap_or};
ghost use Rattle.board_record.specs.Sizes.{places};
ghost use Rattle.board_record.specs.Search.{place_in};

use board_record::PLACES;

// The first place that has the key.
pub fn place_in(keys: &[u32; 128], key: u64) -> Option<usize>
    ensures place { unwrap_or result places ≡ place_in keys.now key }
    ensures within { IfSome result (λ i. i < places) }
{
    for i in 0..PLACES {
        if u64::from(keys[i]) == key {
            return Some(i);
        }
    }
    None
}
