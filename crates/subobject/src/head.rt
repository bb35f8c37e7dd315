// The first four octets of a subobject as numbers. The flags are 0 or 1 and no truth values, since octet 3 is the sum of each times its worth (`flags_octet`).
ghost use Rattle.std.specs.Prelude.{◌≡◌, cond, ◌+◌, ◌≤◌, ◌<◌, length};
ghost use Rattle.subobject.specs.Layout.{head_at, kind_of};
ghost use Rattle.subobject.specs.Inner.{longest};
ghost use Rattle.subobject.specs.Rules.{has_structure};
ghost use Rattle.subobject.specs.Segments.{head_of_outline};

use super::parts;
use super::segment::Outline;
use forms::Form;

#[derive(Clone, Copy)]
pub struct Head {
    pub kind: usize,
    pub size: usize,
    pub nt: usize,
    pub s: usize,
    pub f: usize,
    pub t: usize,
    pub v: usize,
    pub l: usize,
    pub c: usize,
    pub m: usize,
}

// The type in a first octet: in an RRO all 8 bits.
#[tactic(auto, unfolding(crate::specs::Layout::kind_of))]
pub fn kind(x: usize, ero: bool) -> usize
    ensures kind { result ≡ kind_of x ero }
{
    if ero { x % parts::WORTH_L } else { x }
}

// A flag that an RRO ignores.
fn only(x: usize, ero: bool) -> usize
    ensures only { result ≡ cond ero x 0 }
{
    if ero { x } else { 0 }
}

// The head of the subobject at `at`.
pub fn head_at(form: Form, s: &[u8], ero: bool, at: usize) -> Head
    requires { at + 4 ≤ length s.now }
    ensures read { result ≡ head_at form s.now ero at }
    ensures small { (result.size < 256) × (result.nt < 16) }
{
    let first = usize::from(s[at]);
    let size = usize::from(s[at + parts::SIZE_PLACE]);
    let high = usize::from(s[at + parts::FLAGS_PLACE]);
    let low = usize::from(s[at + parts::LOW_FLAGS_PLACE]);
    Head {
        kind: kind(first, ero),
        size,
        nt: high / parts::WORTH_NT,
        s: forms::flag(low, form.s),
        f: forms::flag(low, form.f),
        t: forms::flag(low, form.t),
        v: only(forms::flag(low, form.v), ero),
        l: only(first / parts::WORTH_L, ero),
        c: forms::flag(low, form.c),
        m: forms::flag(low, form.m),
    }
}

// The head that a segment is written with: F follows from NT, the length is the expected one.
pub fn head_of(form: Form, o: Outline) -> Head
    ensures head { result ≡ head_of_outline form o }
    ensures bits { (result.size ≤ longest) × (result.nt < 256) × (result.s ≤ 1) × (result.f ≤ 1) × (result.t ≤ 1) × (result.v ≤ 1) × (result.l ≤ 1) × (result.c ≤ 1) × (result.m ≤ 1) }
{
    let nt = usize::from(o.nt);
    let s = usize::from(!o.hassid);
    let t = usize::from(o.structured);
    Head {
        kind: usize::from(form.kind),
        size: parts::expected(form, nt, s, t),
        nt,
        s,
        f: usize::from(nt == forms::NO_NAI),
        t,
        v: usize::from(o.verify),
        l: usize::from(o.loose),
        c: usize::from(o.complete),
        m: usize::from(o.labelled),
    }
}

// Whether a SID structure is there.
#[tactic(auto, unfolding(crate::specs::Rules::has_structure))]
pub fn structured(h: Head) -> bool
    ensures structured { result ≡ has_structure h }
{
    parts::structure_there(h.s, h.t)
}
