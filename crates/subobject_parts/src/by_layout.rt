// The SID and the NAI of a segment out of octets, for a form whose numbers the compiler knows.
ghost use Rattle.std.specs.Prelude.{◌≡◌, cond, ◌+◌, ◌≤◌, length};
ghost use Rattle.octets.specs.Octets.{part_of};
ghost use Rattle.forms.specs.Forms.{nai_length};
ghost use Rattle.subobject.specs.Layout.{sid_size, nai_size};

use super::eights;
use forms::Layout;

// The SID at a place, if there is one.
pub fn sid<L: Layout>(s: &[u8], there: bool, at: usize) -> [u8; 16]
    requires { at + cond there L.layout.sid 0 ≤ length s.now }
    ensures part { result ≡ part_of s.now at (cond there L.layout.sid 0) sid_size }
{
    if there {
        return eights::run(s, at, usize::from(L::form().sid));
    }
    octets::part(s, at, 0)
}

// The NAI of an NT at a place.
fn of_nt<L: Layout>(s: &[u8], nt: usize, at: usize) -> [u8; 40]
    requires { at + nai_length L.layout nt ≤ length s.now }
    ensures part { result ≡ part_of s.now at (nai_length L.layout nt) nai_size }
{
    eights::run(s, at, forms::nai_length(L::form(), nt))
}

// The same. Each NT stands in an arm of its own, so that the compiler knows how many octets its NAI has.
#[tactic(auto, unfolding(forms::specs::Forms::nai_length))]
pub fn nai<L: Layout>(s: &[u8], nt: usize, at: usize) -> [u8; 40]
    requires { at + nai_length L.layout nt ≤ length s.now }
    ensures part { result ≡ part_of s.now at (nai_length L.layout nt) nai_size }
{
    match nt {
        forms::IPV4_NODE => of_nt::<L>(s, forms::IPV4_NODE, at),
        forms::NODE => of_nt::<L>(s, forms::NODE, at),
        forms::IPV4_ADJACENCY => of_nt::<L>(s, forms::IPV4_ADJACENCY, at),
        forms::ADJACENCY => of_nt::<L>(s, forms::ADJACENCY, at),
        forms::UNNUMBERED => of_nt::<L>(s, forms::UNNUMBERED, at),
        forms::LINK_LOCAL => of_nt::<L>(s, forms::LINK_LOCAL, at),
        _ => octets::part(s, at, 0),
    }
}
