// A segment out of octets, by the head found there.
ghost use Rattle.std.specs.Prelude.{◌≡◌, ◌+◌, ◌≤◌, ◌<◌, length};
ghost use Rattle.subobject.specs.Layout.{expected_length};
ghost use Rattle.subobject.specs.Segments.{segment_by};

use forms::Layout;
use subobject::{Head, Segment};

// What the octets of the subobject at `at` say, by its head.
pub fn segment<L: Layout>(h: Head, s: &[u8], at: usize) -> Segment
    requires { (at + expected_length L.layout h.nt h.s h.t ≤ length s.now) × (h.nt < 16) }
    ensures segment { result ≡ segment_by L.layout h s.now at }
{
    let form = L::form();
    let there = subobject::structured(h);
    let fixed = usize::from(form.fixed);
    let k = subobject::sid_length(form, h.s);
    let n = forms::nai_length(form, h.nt);
    let behaviour = subobject_parts::behaviour_at(form, s, at);
    let sid = subobject_parts::sid::<L>(s, h.s == 0, at + fixed);
    let nai = subobject_parts::nai::<L>(s, h.nt, at + fixed + k);
    let structure = subobject_parts::structure_at(s, there, at + fixed + k + n);
    Segment {
        loose: h.l == 1,
        verify: h.v == 1,
        nt: h.nt as u8,
        behaviour,
        hassid: h.s == 0,
        sid,
        nai,
        structured: there,
        structure,
        labelled: h.m == 1,
        complete: h.c == 1,
    }
}
