// Whether two runs of octets are the same: an address and one of a list, a word and a name.
#![tactic(auto)]

ghost use Rattle.std.specs.Prelude.{◌≡◌};
ghost use Rattle.same_octets.specs.Same.{same_octets};

// Whether the octets are the same, as many and one by one.
#[tactic(auto, using(crate::proofs::Laws::same_lengths), unfolding(crate::specs::Same::same_octets))]
pub fn same(xs: &[u8], ys: &[u8]) -> bool
    ensures same { result ≡ same_octets xs.now ys.now }
{
    xs == ys
}
