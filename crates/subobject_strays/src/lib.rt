// What is set in a subobject that ought to be 0 (document 02, C-18): of its 12 flags those that its form does not assign; the flag octet of its structure;
// and whether one of the reserved octets, 4 and 5 where the form has them and the structure's three, is not 0.
#![tactic(auto)]

ghost use Rattle.std.specs.Prelude.{◌≡◌, cond, ◌+◌, ◌≤◌, ◌<◌, length};
ghost use Rattle.octets.specs.Octets.{be16};
ghost use Rattle.forms.specs.Forms.{srv6_form};
ghost use Rattle.forms.specs.Sized.{Sized};
ghost use Rattle.subobject.specs.Layout.{expected_length};
ghost use Rattle.subobject.specs.Inner.{OfLength};
ghost use Rattle.subobject_strays.specs.Four.{structure_ending, strays_with, marked_at, ending_marked};
ghost use Rattle.subobject_strays.specs.Strays.{all_flags, reserved_place, stray_flags, strays_by, no_strays, stray_one};

use forms::Form;
use subobject::{FLAGS_PLACE, Head};

// what NT's lowest bit is worth in the two octets that it shares with the flags
pub const ALL_FLAGS: usize = 4096;

// octets 2 to 5 of SRv6, the first the lowest, without NT, V, T, F and S: 15 of octet 2, 240 of octet 3, all of octets 4 and 5
const SRV6_STRAY_BITS: usize = 0xffff_f00f;

// the first of two reserved octets
pub const RESERVED_PLACE: usize = 4;

// the reserved octets of a structure, which stand before its flags; and all that stands behind its bit lengths
const STRUCTURE_RESERVED_SIZE: usize = 3;

const STRUCTURE_ENDING: usize = subobject::STRUCTURE_SIZE - subobject::BIT_LENGTHS;

#[derive(Clone, Copy)]
pub struct Strays {
    pub flags: u16,
    pub structure: u8,
    pub reserved: bool,
}

// What comes with a refusal.
pub fn no_strays() -> Strays
    ensures none { result ≡ no_strays }
{
    Strays {
        flags: 0,
        structure: 0,
        reserved: false,
    }
}

// The unassigned flags of the subobject at `at`.
fn stray_flags(form: Form, s: &[u8], at: usize) -> usize
    requires { (at + 4 ≤ length s.now) × Sized form }
    ensures flags { (result ≡ stray_flags form s.now at) × (result < all_flags) }
{
    let free = usize::from(form.free);
    octets::read16(s, at + FLAGS_PLACE) % ALL_FLAGS / free * free
}

// The two reserved octets as a number, 0 where the form has none.
fn reserved_two(form: Form, s: &[u8], at: usize) -> usize
    requires { (at + form.fixed ≤ length s.now) × Sized form }
    ensures two { result ≡ cond form.behaves (be16 s.now (at + reserved_place)) 0 }
{
    if form.behaves {
        return octets::read16(s, at + RESERVED_PLACE);
    }
    0
}

// The strays with a structure whose last four octets stand at p.
fn with_structure(s: &[u8], p: usize, flags: usize, fixed: usize) -> Strays
    requires { (p + structure_ending ≤ length s.now) × (flags < all_flags) }
    ensures strays { result ≡ strays_with s.now p flags fixed }
{
    let more = octet_sums::sum_three(s, p);
    Strays {
        flags: flags as u16,
        structure: s[p + STRUCTURE_RESERVED_SIZE],
        reserved: fixed != 0 || more != 0,
    }
}

// The strays of the subobject at `at`, which has the head h.
pub fn strays_at(form: Form, h: Head, s: &[u8], at: usize) -> Strays
    requires { (at + expected_length form h.nt h.s h.t ≤ length s.now) × Sized form }
    ensures strays { result ≡ strays_by form h s.now at }
{
    let flags = stray_flags(form, s, at);
    let fixed = reserved_two(form, s, at);
    if subobject::structured(h) {
        let nai = forms::nai_length(form, h.nt);
        let p = at + usize::from(form.fixed) + usize::from(form.sid) + nai + subobject::BIT_LENGTHS;
        return with_structure(s, p, flags, fixed);
    }
    Strays {
        flags: flags as u16,
        structure: 0,
        reserved: fixed != 0,
    }
}

// Whether an unassigned flag or a reserved octet is set in the fixed part.
fn marked(form: Form, s: &[u8], at: usize) -> bool
    requires { (at + form.fixed ≤ length s.now) × Sized form }
    ensures marked { result ≡ marked_at form s.now at }
{
    stray_flags(form, s, at) != 0 || reserved_two(form, s, at) != 0
}

// The same for SRv6: octets 2 to 5 are looked at as one number.
fn marked_srv6(s: &[u8], at: usize) -> bool
    requires { at + srv6_form.fixed ≤ length s.now }
    ensures marked { result ≡ marked_at srv6_form s.now at }
{
    octet_sums::four(s, at + FLAGS_PLACE) & SRV6_STRAY_BITS != 0
}

// Whether one of the last four octets of a structure is set. They end a subobject of the expected length.
fn ending_marked(form: Form, h: Head, s: &[u8], at: usize) -> bool
    requires { OfLength form h s.now at }
    ensures marked { result ≡ ending_marked h s.now at }
{
    if subobject::structured(h) {
        return octet_sums::four(s, at + h.size - STRUCTURE_ENDING) != 0;
    }
    false
}

// 1 for a stray segment, else 0: what a walk over many subobjects counts.
pub fn stray_of(form: Form, h: Head, s: &[u8], at: usize) -> usize
    requires { (at + form.fixed ≤ length s.now) × (Sized form) × OfLength form h s.now at }
    ensures one { (result ≡ stray_one (strays_by form h s.now at)) × (result ≤ 1) }
{
    if marked(form, s, at) {
        return 1;
    }
    if ending_marked(form, h, s, at) {
        return 1;
    }
    0
}

// The same for SRv6, in the pass over a route: flags and reserved octets as one number.
pub fn stray_srv6(h: Head, s: &[u8], at: usize) -> usize
    requires { (at + srv6_form.fixed ≤ length s.now) × OfLength srv6_form h s.now at }
    ensures one { (result ≡ stray_one (strays_by srv6_form h s.now at)) × (result ≤ 1) }
{
    if marked_srv6(s, at) {
        return 1;
    }
    if ending_marked(forms::srv6(), h, s, at) {
        return 1;
    }
    0
}
