// A segment out of octets.
ghost use Rattle.std.specs.Prelude.{◌≡◌, ◌+◌, ◌≤◌, length};
ghost use Rattle.forms.specs.Sized.{Sized};
ghost use Rattle.subobject.specs.Layout.{expected_at};
ghost use Rattle.subobject.specs.Segments.{segment_at, no_segment};

use forms::Form;
use subobject::Segment;

// The segment that comes with a refusal.
pub fn no_segment() -> Segment
    ensures zeros { result ≡ no_segment }
{
    Segment {
        loose: false,
        verify: false,
        nt: 0,
        behaviour: 0,
        hassid: false,
        sid: [0u8; 16],
        nai: [0u8; 40],
        structured: false,
        structure: [0u8; 4],
        labelled: false,
        complete: false,
    }
}

// What the octets of the subobject at `at` say.
pub fn segment_at(form: Form, s: &[u8], ero: bool, at: usize) -> Segment
    requires { (at + expected_at form s.now ero at ≤ length s.now) × Sized form }
    ensures segment { result ≡ segment_at form s.now ero at }
{
    let h = subobject::head_at(form, s, ero, at);
    let there = subobject::structured(h);
    let fixed = usize::from(form.fixed);
    let k = subobject::sid_length(form, h.s);
    let n = forms::nai_length(form, h.nt);
    let behaviour = subobject_parts::behaviour_at(form, s, at);
    let sid = octets::part(s, at + fixed, k);
    let nai = octets::part(s, at + fixed + k, n);
    let structure = subobject_parts::structure_at(s, there, at + fixed + k + n);
    Segment {
        loose: h.l == 1,
        verify: h.v == 1,
        nt: h.nt as u8,
        behaviour,
        hassid: h.s == 0,
        sid,
        nai,
        structured: there,
        structure,
        labelled: h.m == 1,
        complete: h.c == 1,
    }
}
