// The rules of one subobject, over its head (document 01, "Numbers answered").
ghost use Rattle.std.specs.Prelude.{◌≡◌, ◌+◌, ◌<◌, length};
ghost use Rattle.subobject.specs.Rules.{rule7, rule8, rule9, rule10, rule11, malformed, sum_at};

use forms::Form;
use subobject::Head;

// An NT that the form does not know.
#[tactic(auto, unfolding(subobject::specs::Rules::rule8))]
pub fn eight(form: Form, h: Head) -> bool
    ensures broken { result ≡ rule8 form h }
{
    !forms::known(form, h.nt)
}

// S and F both 1.
#[tactic(auto, unfolding(subobject::specs::Rules::rule9))]
pub fn nine(h: Head) -> bool
    ensures broken { result ≡ rule9 h }
{
    h.s == 1 && h.f == 1
}

// M or C without a SID, or C without M.
#[tactic(auto, unfolding(subobject::specs::Rules::malformed))]
pub fn is_malformed(h: Head) -> bool
    ensures malformed { result ≡ malformed h }
{
    (h.s == 1 && (h.m == 1 || h.c == 1)) || (h.c == 1 && h.m != 1)
}

// F isn't 1 exactly for NT 0, or Length isn't as expected, or the flags do not go together.
#[tactic(auto, unfolding(subobject::specs::Rules::rule7))]
pub fn seven(form: Form, h: Head) -> bool
    ensures broken { result ≡ rule7 form h }
{
    h.f != usize::from(h.nt == forms::NO_NAI)
        || h.size != subobject::expected(form, h.nt, h.s, h.t)
        || is_malformed(h)
}

// No SID, and the PCC's N is 0; not applied in an RRO.
#[tactic(auto, unfolding(subobject::specs::Rules::rule10))]
pub fn ten(h: Head, ero: bool, n: bool) -> bool
    ensures broken { result ≡ rule10 h ero n }
{
    ero && h.s == 1 && !n
}

// Four bit lengths sum above 128.
#[tactic(auto, unfolding(subobject::specs::Rules::rule11))]
pub fn eleven(h: Head, sum: usize) -> bool
    ensures broken { result ≡ rule11 h sum }
{
    subobject::structured(h) && sum > subobject::MOST_BITS
}

// The sum of four octets; past the end they are 0.
pub fn sum_at(s: &[u8], at: usize) -> usize
    requires { at < length s.now + 128 }
    ensures sum { (result ≡ sum_at s.now at) × (result < 1024) }
{
    octet_sums::sum_four(s, at)
}
