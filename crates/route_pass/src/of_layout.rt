// What the pass asks of a form by itself, by its quickest test: the labels alone that a route begins with, a head, a label, strays.
ghost use Rattle.std.specs.Prelude.{◌≡◌, true, false, ◌+◌, ◌%◌, ◌≤◌, ◌<◌, length};
ghost use Rattle.octets.specs.Octets.{end16};
ghost use Rattle.objects.specs.Objects.{header, unit};
ghost use Rattle.subobject.specs.Layout.{head_at};
ghost use Rattle.subobject.specs.Inner.{OfLength, HeadSound, LabelSound};
ghost use Rattle.subobject.specs.Rules.{rule7};
ghost use Rattle.subobject_strays.specs.Strays.{strays_by, stray_one};
ghost use Rattle.route_pass.specs.Settled.{Begun};

use forms::{Layout, Mpls, Srv6};
use subobject::Head;

// A form that the pass goes over.
pub trait Passed: Layout {
    // How many labels alone a route begins with: none but in MPLS.
    fn labels(s: &[u8]) -> usize
        requires { (header ≤ length s.now) × (length s.now < end16) }
        ensures labels { Begun Self.layout s.now result };

    // Whether the subobject at a place, with the head h, breaks none of 8, 9, 7 and 10. Its length is then as it should be.
    fn is_sound(h: Head, s: &[u8], ero: bool, n: bool, at: usize) -> bool
        requires { (at + 4 ≤ length s.now) × (h ≡ head_at Self.layout s.now ero at) × (h.size < 256) }
        ensures sound { result ≡ true → HeadSound Self.layout h ero n }
        ensures fours { result ≡ true → (h.size % unit ≡ 0) × (unit ≤ h.size) };

    // Whether its label, if it has one, breaks neither 29 nor 30.
    fn label_sound(h: Head, s: &[u8], at: usize) -> bool
        requires { (rule7 Self.layout h ≡ false) × (h.s ≤ 1) × OfLength Self.layout h s.now at }
        ensures sound { result ≡ true → LabelSound Self.layout h s.now at };

    // 1 if it is stray, else 0.
    fn stray_of(h: Head, s: &[u8], at: usize) -> usize
        requires { (at + Self.layout.fixed ≤ length s.now) × OfLength Self.layout h s.now at }
        ensures one { (result ≡ stray_one (strays_by Self.layout h s.now at)) × (result ≤ 1) };
}

impl Passed for Srv6 {
    fn labels(_s: &[u8]) -> usize {
        0
    }

    // rule by rule, over the head alone
    fn is_sound(h: Head, _s: &[u8], ero: bool, n: bool, _at: usize) -> bool {
        subobject_sound::head_sound(forms::srv6(), h, ero, n)
    }

    fn label_sound(h: Head, s: &[u8], at: usize) -> bool {
        subobject_sound::label_sound(forms::srv6(), h, s, at)
    }

    // flags and reserved octets as one number
    fn stray_of(h: Head, s: &[u8], at: usize) -> usize {
        subobject_strays::stray_srv6(h, s, at)
    }
}

impl Passed for Mpls {
    fn labels(s: &[u8]) -> usize {
        label_run::labels(s)
    }

    // all at once, as one number
    fn is_sound(h: Head, s: &[u8], ero: bool, n: bool, at: usize) -> bool {
        subobject_shape::mpls_head_sound(h, s, ero, n, at)
    }

    // a good label by its first 16 bits
    fn label_sound(h: Head, s: &[u8], at: usize) -> bool {
        subobject_sound::mpls_label_sound(h, s, at)
    }

    fn stray_of(h: Head, s: &[u8], at: usize) -> usize {
        subobject_strays::stray_of(forms::mpls(), h, s, at)
    }
}
