// Where A and R stand.
ghost use Rattle.std.specs.Prelude.{◌≡◌};
ghost use Rattle.border_opened.specs.Opens.{positions_in};

use flag_positions::Positions;

#[repr(C)]
#[derive(Clone, Copy)]
pub struct PositionsRecord {
    pub a: u64,
    pub r: u64,
}

pub fn positions_in(p: PositionsRecord) -> Positions
    ensures positions { result ≡ positions_in p }
{
    Positions { a: p.a, r: p.r }
}
