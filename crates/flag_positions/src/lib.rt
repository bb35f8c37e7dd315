// The two bit positions that come in at set-up (document 02, C-15): the flags A and R of sub-TLV 27 have no assigned position.
//
// Positions count from the high end of the 16 flags: position p is worth 2^(15-p), so N stands at 14 and X at 15.
// Usable are two different ones of 0 to 13: else 28.
#![tactic(auto)]

ghost use Rattle.std.specs.Prelude.{◌≡◌};
ghost use Rattle.flag_positions.specs.Positions.{usable_positions, first_two, flag_at};

// The last position that A and R can have.
const LAST_POSITION: u64 = 13;

// The position that is worth 1.
const LOWEST_POSITION: u64 = 15;

// Where A and R stand.
#[derive(Clone, Copy)]
pub struct Positions {
    pub a: u64,
    pub r: u64,
}

// Positions 0 and 1: those of the checking program.
pub fn first_two() -> Positions
    ensures first { result ≡ first_two }
{
    Positions { a: 0, r: 1 }
}

// Whether the two positions can be used.
#[tactic(auto, unfolding(crate::specs::Positions::usable_positions))]
pub fn usable(p: Positions) -> bool
    ensures usable { result ≡ usable_positions p }
{
    p.a <= LAST_POSITION && p.r <= LAST_POSITION && p.a != p.r
}

// Whether the flag at a position is set in the 16 flags; none stands behind position 15.
#[tactic(auto, unfolding(crate::specs::Positions::flag_at))]
pub fn flag(flags: usize, p: u64) -> bool
    ensures flag { result ≡ flag_at flags p }
{
    p <= LOWEST_POSITION && (flags >> (LOWEST_POSITION - p)) % 2 == 1
}
