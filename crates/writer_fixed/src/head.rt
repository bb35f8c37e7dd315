// The octets before the SID: type, length, NT and flags, and the endpoint behaviour where the form has one.
ghost use Rattle.std.specs.Prelude.{◌≡◌, [], ◌∷◌, ◌+◌, ◌*◌, ◌≤◌, ◌<◌, length};
ghost use Rattle.octets.specs.Octets.{hi, lo, over, placed};
ghost use Rattle.subobject.specs.Layout.{worth_l, worth_nt};
ghost use Rattle.subobject.specs.Segments.{flags_octet, fixed_octets};
ghost use Rattle.subobject_strays.specs.Strays.{reserved_place};
ghost use Rattle.writer_fixed.specs.Small.{Small};

use forms::Layout;
use subobject::{BEHAVIOUR_PLACE, FLAGS_PLACE, Head, LOW_FLAGS_PLACE, SIZE_PLACE};
use subobject_strays::RESERVED_PLACE;

// the second octets of the reserved ones and of the behaviour
const RESERVED_LAST: usize = RESERVED_PLACE + 1;

const BEHAVIOUR_LAST: usize = BEHAVIOUR_PLACE + 1;

// What a flag adds to its octet.
fn worth(flag: usize, w: u8) -> usize
    requires { flag ≤ 1 }
    ensures worth { (result ≡ flag * w) × (result < 256) }
{
    flag * usize::from(w)
}

// Octet 3 of a form.
fn flags<L: Layout>(h: Head) -> usize
    requires { Small L.layout h }
    ensures flags { result ≡ flags_octet L.layout h }
{
    let form = L::form();
    worth(h.v, form.v)
        + worth(h.t, form.t)
        + worth(h.f, form.f)
        + worth(h.s, form.s)
        + worth(h.c, form.c)
        + worth(h.m, form.m)
}

// The first four octets.
fn four<L: Layout>(out: &mut [u8], h: Head, size: usize)
    requires { (Small L.layout h) × (h.kind ≡ L.layout.kind) × (size ≡ h.size) × (4 ≤ length out.old) }
    ensures four { out.new ≡ over ((h.l * worth_l + h.kind) ∷ h.size ∷ (h.nt * worth_nt) ∷ flags_octet L.layout h ∷ []) out.old }
{
    let form = L::form();
    out[0] = (h.l * subobject::WORTH_L + usize::from(form.kind)) as u8;
    out[SIZE_PLACE] = size as u8;
    out[FLAGS_PLACE] = (h.nt * subobject::WORTH_NT) as u8;
    out[LOW_FLAGS_PLACE] = flags::<L>(h) as u8;
}

// Two reserved octets and the endpoint behaviour.
fn four_more(out: &mut [u8], behaviour: usize)
    requires { 8 ≤ length out.old }
    ensures four { out.new ≡ placed out.old reserved_place (0 ∷ 0 ∷ hi behaviour ∷ lo behaviour ∷ []) }
{
    out[RESERVED_PLACE] = 0;
    out[RESERVED_LAST] = 0;
    out[BEHAVIOUR_PLACE] = (behaviour / 256 % 256) as u8;
    out[BEHAVIOUR_LAST] = (behaviour % 256) as u8;
}

// The octets before the SID.
pub fn fixed<L: Layout>(out: &mut [u8], h: Head, size: usize, behaviour: usize)
    requires { (Small L.layout h) × (L.layout.fixed ≤ length out.old) × (h.kind ≡ L.layout.kind) × (size ≡ h.size) }
    ensures fixed { out.new ≡ over (fixed_octets L.layout h behaviour) out.old }
{
    let form = L::form();
    four::<L>(out, h, size);
    if form.behaves {
        four_more(out, behaviour);
    }
}
