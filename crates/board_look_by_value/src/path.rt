// The octets of a key's path, where they stand in the lent store.
ghost use Rattle.std.specs.Prelude.{◌≡◌};
ghost use Rattle.board_look_by_value.specs.ByValue.{body_by_value};

use board_record::Board;

// Body (key): the path's octets, a part of the store; empty on refusal.
pub fn body(b: Board, store: &[u8], key: u64) -> &[u8]
    ensures body { result.now ≡ body_by_value b store.now key }
{
    board_body::body(b.lent(), store, key)
}
