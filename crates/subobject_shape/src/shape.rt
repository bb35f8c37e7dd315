// The shape of an MPLS subobject, which its length, NT and flags have to be of (RFC 8664, 4.3.1 and 5.2.1): 8, 9, 7 and 10 at once.
//
//   NT       F  S  C  M      length
//   0        1  0  0  0      8
//   0        1  0  0  1      8
//   0        1  0  1  1      8
//   1 to 6   0  0  0  0      8 and the NAI
//   1 to 6   0  0  0  1      8 and the NAI
//   1 to 6   0  0  1  1      8 and the NAI
//   1 to 6   0  1  0  0      4 and the NAI; not where a SID is needed
ghost use Rattle.std.specs.Prelude.{◌≡◌, true, Bool, ℕ, ◌+◌, ◌≤◌, ◌<◌, length};
ghost use Rattle.forms.specs.Forms.{mpls_form};
ghost use Rattle.subobject.specs.Layout.{head_of, head_at};
ghost use Rattle.subobject.specs.Inner.{HeadSound};
ghost use Rattle.subobject_shape.specs.Fitting.{Fitting, allowed_by};

use subobject::Head;

// Two bits for each of the 16 ways in which F, S, C and M are set: 1 where they go with NT 0, 2 where with NT 1 to 6, 0 where with none.
// From the lowest, with M worth 1, C 2, S 4 and F 8: 2 2 0 2, 2 0 0 0, 1 1 0 1, 0 0 0 0.
const WAYS: usize = 4522634;

// The same where a SID is needed: 0 where S is set.
const WAYS_WITH_SID: usize = 4522122;

// Two bits for each NT, that of 0 the lowest: 1 for 0, 2 for 1 to 6, 3 for 7 to 15.
const NAMED: usize = 4294961833;

// An octet for each NT to 6: the length with a SID.
const LENGTHS: usize = (forms::MPLS_NAIS
    + (forms::MPLS_FIXED + forms::ENTRY_SIZE) as u64 * forms::EACH_NT) as usize;

// the low bits of octet 3 that are F, S, C and M
const FOUR_BITS: usize = 16;

// The flags that an NT goes with.
fn allowed(needed: bool) -> usize
    ensures allowed { result ≡ allowed_by needed }
{
    if needed { WAYS_WITH_SID } else { WAYS }
}

// Whether octets 1 to 3 are of a subobject that breaks none of these rules; 10 by whether a SID is needed.
fn fits(size: usize, high: usize, low: usize, needed: bool) -> bool
    requires { (size < 256) × (high < 256) }
    ensures fits { result ≡ true → (first : ℕ) (ero : Bool) → Fitting (head_of mpls_form first size high low ero) needed }
{
    let nt = high / subobject::WORTH_NT;
    let flags = low % FOUR_BITS;
    if (allowed(needed) >> (2 * flags)) % 4 != (NAMED >> (2 * nt)) % 4 {
        return false;
    }
    size + flags / forms::MPLS_S % 2 * forms::ENTRY_SIZE == (LENGTHS >> (8 * nt)) % 256
}

// The same of the subobject at a place, which has the head h. `subobject_sound::head_sound` asks it of any form, rule by rule; a pass over MPLS with it takes 1.2 of the time.
pub fn mpls_head_sound(h: Head, s: &[u8], ero: bool, n: bool, at: usize) -> bool
    requires { (at + 4 ≤ length s.now) × (h ≡ head_at mpls_form s.now ero at) × (h.size < 256) }
    ensures sound { result ≡ true → HeadSound mpls_form h ero n }
{
    let high = usize::from(s[at + subobject::FLAGS_PLACE]);
    let low = usize::from(s[at + subobject::LOW_FLAGS_PLACE]);
    let needed = ero && !n;
    fits(h.size, high, low, needed)
}
