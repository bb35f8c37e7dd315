// Octets of a run as one number: three or four added up, four by their places.
#![tactic(auto)]

ghost use Rattle.std.specs.Prelude.{◌≡◌, ◌+◌, ◌≤◌, ◌<◌, length};
ghost use Rattle.octet_sums.specs.Sums.{sum_three, sum_at, four_at};

// The sum of three octets.
pub fn sum_three(s: &[u8], at: usize) -> usize
    requires { at + 3 ≤ length s.now }
    ensures sum { result ≡ sum_three s.now at }
{
    usize::from(s[at]) + usize::from(s[at + 1]) + usize::from(s[at + 2])
}

// The sum of four octets that are all there.
pub fn sum_four_in(s: &[u8], at: usize) -> usize
    requires { at + 4 ≤ length s.now }
    ensures sum { (result ≡ sum_at s.now at) × (result < 1024) }
{
    usize::from(s[at]) + usize::from(s[at + 1]) + usize::from(s[at + 2]) + usize::from(s[at + 3])
}

// The sum of four octets; past the end they are 0.
pub fn sum_four(s: &[u8], at: usize) -> usize
    requires { at < length s.now + 128 }
    ensures sum { (result ≡ sum_at s.now at) × (result < 1024) }
{
    if at + 4 <= s.len() {
        return sum_four_in(s, at);
    }
    octets::octet(s, at)
        + octets::octet(s, at + 1)
        + octets::octet(s, at + 2)
        + octets::octet(s, at + 3)
}

// Four octets as one number, the first the lowest: the compiler reads them at once.
pub fn four(s: &[u8], at: usize) -> usize
    requires { at + 4 ≤ length s.now }
    ensures four { result ≡ four_at s.now at }
{
    usize::from(s[at])
        + usize::from(s[at + 1]) * 256
        + usize::from(s[at + 2]) * 65536
        + usize::from(s[at + 3]) * 16777216
}
