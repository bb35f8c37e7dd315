// The parts behind the fixed one. The compiler knows how many octets each copy has, and takes them from an array of the function's own, of which it sees that the
// lent buffer is no part: so it copies them in one go.
ghost use Rattle.std.specs.Prelude.{◌≡◌, cond, ◌+◌, ◌≤◌, length, take};
ghost use Rattle.octets.specs.Octets.{placed};
ghost use Rattle.forms.specs.Forms.{nai_length};
ghost use Rattle.subobject.specs.Layout.{nai_size, structure_size};

use forms::Layout;

// A SID behind the fixed part, if it is there.
pub fn lay_sid<L: Layout>(out: &mut [u8], sid: &[u8; 16], there: bool)
    requires { L.layout.fixed + cond there L.layout.sid 0 ≤ length out.old }
    ensures laid { out.new ≡ placed out.old L.layout.fixed (take (cond there L.layout.sid 0) sid.now) }
{
    if there {
        let form = L::form();
        let whole = *sid;
        octets::lay(
            out,
            usize::from(form.fixed),
            &whole[..usize::from(form.sid)],
        );
    }
}

// The first n octets of an NAI from the place `at` on.
fn lay_first(out: &mut [u8], at: usize, nai: &[u8; 40], n: usize)
    requires { (n ≤ nai_size) × (at + n ≤ length out.old) }
    ensures laid { out.new ≡ placed out.old at (take n nai.now) }
{
    let whole = *nai;
    octets::lay(out, at, &whole[..n]);
}

// The NAI of an NT from the place `at` on.
fn lay_nt<L: Layout>(out: &mut [u8], at: usize, nai: &[u8; 40], nt: usize)
    requires { at + nai_length L.layout nt ≤ length out.old }
    ensures laid { out.new ≡ placed out.old at (take (nai_length L.layout nt) nai.now) }
{
    lay_first(out, at, nai, forms::nai_length(L::form(), nt));
}

// The same. Each NT stands in an arm of its own, so that the compiler knows how many octets its NAI has.
#[tactic(auto, unfolding(forms::specs::Forms::nai_length))]
pub fn lay_nai<L: Layout>(out: &mut [u8], at: usize, nai: &[u8; 40], nt: usize)
    requires { at + nai_length L.layout nt ≤ length out.old }
    ensures laid { out.new ≡ placed out.old at (take (nai_length L.layout nt) nai.now) }
{
    match nt {
        forms::IPV4_NODE => lay_nt::<L>(out, at, nai, forms::IPV4_NODE),
        forms::NODE => lay_nt::<L>(out, at, nai, forms::NODE),
        forms::IPV4_ADJACENCY => lay_nt::<L>(out, at, nai, forms::IPV4_ADJACENCY),
        forms::ADJACENCY => lay_nt::<L>(out, at, nai, forms::ADJACENCY),
        forms::UNNUMBERED => lay_nt::<L>(out, at, nai, forms::UNNUMBERED),
        forms::LINK_LOCAL => lay_nt::<L>(out, at, nai, forms::LINK_LOCAL),
        _ => lay_first(out, at, nai, 0),
    }
}

// A SID structure from the place `at` on, if it is there.
pub fn lay_structure(out: &mut [u8], at: usize, last: [u8; 8], there: bool)
    requires { at + cond there structure_size 0 ≤ length out.old }
    ensures laid { out.new ≡ placed out.old at (take (cond there structure_size 0) last) }
{
    if there {
        octets::lay(out, at, &last);
    }
}
