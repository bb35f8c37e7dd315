// The record of a board. Place i is `keys[i]`, `versions[i]` and `lengths[i]`: key 0 is an empty place, a key with
// length 0 the mark of a removal, a key with another length a path whose body has that many octets. `order` names
// the used places from the oldest change to the newest, each by 1 more than the place, and has 0 behind them. `tops` has for
// each 8 places the largest version among them. `forms[i]` is the form of place i's path, by its setup type (objects::SRV6_SETUP
// or MPLS_SETUP), and 0 at an empty place and a removal. So all zeros is the empty board.
ghost use Rattle.std.specs.Prelude.{◌≡◌};
ghost use Rattle.board_record.specs.Record.{empty_board};

use super::size::{GROUPS, PLACES};

#[derive(Clone, Copy)]
pub struct Board {
    pub keys: [u32; 128],
    pub versions: [u64; 128],
    pub lengths: [u16; 128],
    pub version: u64,
    pub floor: u64,
    pub order: [u8; 128],
    pub tops: [u64; 16],
    pub forms: [u8; 128],
}

// The board at the start: all places empty, version and floor 0.
pub fn empty() -> Board
    ensures empty { result ≡ empty_board }
{
    Board {
        keys: [0; PLACES],
        versions: [0; PLACES],
        lengths: [0; PLACES],
        version: 0,
        floor: 0,
        order: [0; PLACES],
        tops: [0; GROUPS],
        forms: [0; PLACES],
    }
}
