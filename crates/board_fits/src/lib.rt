// Whether a path's length fits its form (document 01, "The board": what is proper, with the second form of 02).
#![tactic(auto)]

ghost use Rattle.std.specs.Prelude.{◌≡◌};
ghost use Rattle.board_fits.specs.Fits.{body_b, turned_of};

const UNIT: u16 = objects::UNIT as u16;

// lengths in units
const LEAST_SRV6: u8 = (board_record::BODY_LEAST_SRV6 / objects::UNIT) as u8;

const LEAST_MPLS: u8 = (board_record::BODY_LEAST_MPLS / objects::UNIT) as u8;

const MOST: u16 = (board_record::ROOM / objects::UNIT) as u16;

const SRV6: u8 = objects::SRV6_SETUP as u8;

const MPLS: u8 = objects::MPLS_SETUP as u8;

// above every length in units
const ABOVE_LENGTHS: u16 = 16384;

// A length in units; at least ABOVE_LENGTHS where it is not a number of units.
fn turned(l: u16) -> u16
    ensures turned { result ≡ turned_of l }
{
    l / UNIT + l % UNIT * ABOVE_LENGTHS
}

// Whether a length fits a form: that of a path, or 0 where there is none. By `&` and `|`, which have no branch, so that the compiler can
// take many places at a time.
pub fn fits(l: u16, form: u8) -> bool
    ensures fits { result ≡ body_b l form }
{
    let t = turned(l);
    let q = (t % 256) as u8;
    let srv6 = (form == SRV6) & (LEAST_SRV6 <= q);
    let mpls = (form == MPLS) & (LEAST_MPLS <= q);
    let none = (form == 0) & (q == 0);
    (t <= MOST) & (srv6 | mpls | none)
}
