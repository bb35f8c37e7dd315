// The board's calls that take a path or marks away, with the record by value (document 01, "The board"): remove and compact hand it
// back changed; after a refusal the caller's is as it was. Each lends the record's arrays to the call of board_remove or board_compact.
#![tactic(auto)]

ghost use Rattle.std.specs.Prelude.{◌≡◌};
ghost use Rattle.board_by_value.specs.Back.{back_of};
ghost use Rattle.board_by_value.specs.ByValue.{remove_by_value, compact_by_value};

use answers::Refusal;
use board_record::Board;

// Remove (key).
pub fn remove(b: Board, store: &[u8], key: u64) -> Result<Board, Refusal>
    ensures answer { back_of b result ≡ remove_by_value b store.now key }
{
    let mut marked = b;
    let lent = &mut marked;
    let mut parts = board_remove::Parts {
        keys: &lent.keys,
        versions: &mut lent.versions,
        lengths: &mut lent.lengths,
        version: &mut lent.version,
        floor: lent.floor,
        order: &mut lent.order,
        tops: &mut lent.tops,
        forms: &mut lent.forms,
    };
    board_remove::remove(&mut parts, store, key)?;
    Ok(marked)
}

// Compact (c).
pub fn compact(b: Board, store: &[u8], c: u64) -> Result<Board, Refusal>
    ensures answer { back_of b result ≡ compact_by_value b store.now c }
{
    let mut swept = b;
    let lent = &mut swept;
    let mut parts = board_compact::Parts {
        keys: &mut lent.keys,
        versions: &mut lent.versions,
        lengths: &lent.lengths,
        version: lent.version,
        floor: &mut lent.floor,
        order: &mut lent.order,
        tops: &mut lent.tops,
        forms: &lent.forms,
    };
    board_compact::compact(&mut parts, store, c)?;
    Ok(swept)
}
