// 17 is answered exactly if the store is shorter than 49,152 octets or the record isn't proper; a proper record's order is
// that of its table.
ghost use Rattle.std.specs.Prelude.{◌≡◌, ◌*◌, ◌<◌, IfSome, is_some};
ghost use Rattle.board_record.specs.Sizes.{places, room};
ghost use Rattle.board_record.specs.Lent.{table_lent, board_lent};
ghost use Rattle.board_record.specs.Search.{place_of};
ghost use Rattle.board_rules.specs.Rules.{has_path};
ghost use Rattle.board_rules.specs.Parts.{path_at};
ghost use Rattle.board_rules.specs.OnRecord.{is_record};

use board_record::{Lent, ROOM, STORE_SIZE};
use board_rules::Octets;
use board_search::place_in;

// Whether a store of n octets and the record are a board.
#[tactic(auto, using(board_rules::proofs::Shared::board_long, octets::proofs::Tests::tests), unfolding(board_rules::specs::OnRecord::is_record, board_rules::specs::Rules::is_board))]
pub fn is_board(b: Lent<'_>, n: usize) -> bool
    ensures board { result ≡ is_record (board_lent b.entry) n }
{
    STORE_SIZE <= n && board_proper::is_proper(b)
}

// Place i, from 0, starts at 384 times i.
pub fn start_of(i: usize) -> usize
    requires { i < places }
    ensures start { result ≡ room * i }
{
    ROOM * i
}

// The place of the key's path, if the key has one.
#[tactic(auto, using(octets::proofs::Tests::tests), unfolding(board_rules::specs::Rules::has_path))]
pub fn path_place(b: Lent<'_>, key: u64) -> Option<usize>
    ensures has { is_some result ≡ has_path (table_lent b.entry) key }
    ensures place { IfSome result (λ i. (i < places) × (i ≡ place_of (table_lent b.entry) key)) }
{
    let at = place_in(b.keys, key)?;
    if b.lengths[at] == 0 {
        return None;
    }
    Some(at)
}

// Where the path at place i lies, and its form.
pub fn path_at(b: Lent<'_>, i: usize) -> Octets
    requires { i < places }
    ensures path { result ≡ path_at (table_lent b.entry) i }
{
    Octets {
        place: i,
        length: usize::from(b.lengths[i]),
        form: usize::from(b.forms[i]),
    }
}
