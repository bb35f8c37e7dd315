// The parts that stand alike in both forms: the endpoint behaviour, the bit lengths of a SID structure.
ghost use Rattle.std.specs.Prelude.{◌≡◌, ◌+◌, ◌≤◌, length, cond};
ghost use Rattle.octets.specs.Octets.{be16, part_of};
ghost use Rattle.forms.specs.Sized.{Sized};
ghost use Rattle.subobject.specs.Layout.{behaviour_place, bit_lengths};

use forms::Form;

// The endpoint behaviour of the subobject at `at`, 0 where the form has none.
pub fn behaviour_at(form: Form, s: &[u8], at: usize) -> u16
    requires { (at + form.fixed ≤ length s.now) × Sized form }
    ensures behaviour { result ≡ cond form.behaves (be16 s.now (at + behaviour_place)) 0 }
{
    if form.behaves {
        return octets::read16(s, at + subobject::BEHAVIOUR_PLACE) as u16;
    }
    0
}

// The bit lengths of the SID structure at a place, if there is one.
pub fn structure_at(s: &[u8], there: bool, at: usize) -> [u8; 4]
    requires { at + cond there bit_lengths 0 ≤ length s.now }
    ensures part { result ≡ part_of s.now at (cond there bit_lengths 0) bit_lengths }
{
    if there {
        return octets::part(s, at, subobject::BIT_LENGTHS);
    }
    octets::part(s, at, 0)
}
