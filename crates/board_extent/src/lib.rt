// How far the places in use reach. A record whose order is short has its places in use at the start, if they were taken as they were free; then what is
// behind them is looked at once, and by the rest of rule 17 no more.
#![tactic(auto)]

ghost use Rattle.std.specs.Prelude.{◌≤◌};
ghost use Rattle.board_record.specs.Sizes.{places};
ghost use Rattle.board_extent.specs.Extent.{Reach};

use board_record::{Lent, PLACES};

// how far they may reach
const NEAR: usize = 32;

const HALF: usize = 64;

const FAR: usize = 96;

// As many places as the order has numbers, or more: a count, of which 128 is the largest, and never none.
fn guess(order: &[u8; 128]) -> usize
    ensures most { result ≤ places }
{
    if order[NEAR] == 0 {
        return NEAR;
    }
    if order[HALF] == 0 {
        return HALF;
    }
    if order[FAR] == 0 {
        return FAR;
    }
    PLACES
}

// How many places those in use are among, from the first on: all 128, if no lower count is found. So 128 is a count too, and never none. What is behind
// them is joined by `or`: a loop with no way out, and one for each width, so that the compiler takes many places at a time; each is looked at by itself behind its
// loop, since the four in one test are four numbers to be made of many lanes.
pub fn extent(b: Lent<'_>) -> usize
    ensures reach { let now = b.entry in Reach now.keys.now now.versions.now now.lengths.now now.forms.now result }
{
    let m = guess(b.order);
    let mut key: u32 = 0;
    for k in m..PLACES {
        key |= b.keys[k];
    }
    if key != 0 {
        return PLACES;
    }
    let mut version: u64 = 0;
    for v in m..PLACES {
        version |= b.versions[v];
    }
    if version != 0 {
        return PLACES;
    }
    let mut length: u16 = 0;
    for l in m..PLACES {
        length |= b.lengths[l];
    }
    if length != 0 {
        return PLACES;
    }
    let mut form: u8 = 0;
    for f in m..PLACES {
        form |= b.forms[f];
    }
    if form != 0 {
        return PLACES;
    }
    m
}
