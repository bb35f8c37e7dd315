// Octets out of a slice: one, two as a number, a run of them in an array that is 0 behind the run.
ghost use Rattle.std.specs.Prelude.{◌≡◌, ◌+◌, ◌*◌, ◌≤◌, ◌<◌, length};
ghost use Rattle.octets.specs.Octets.{octet_of, be16, end16, pad4, part_of};

// what two octets say is below this
pub const END16: usize = 65536;

// The octet at a place, 0 past the end.
pub fn octet(s: &[u8], at: usize) -> usize
    ensures octet { (result ≡ octet_of s.now at) × (result < 256) }
{
    if at < s.len() { usize::from(s[at]) } else { 0 }
}

// Two octets, the first worth 256.
pub fn read16(s: &[u8], at: usize) -> usize
    requires { at + 2 ≤ length s.now }
    ensures number { (result ≡ be16 s.now at) × (result < end16) }
{
    usize::from(s[at]) * 256 + usize::from(s[at + 1])
}

// A length with its padding to a multiple of 4.
pub fn padded(n: usize) -> usize
    requires { n < 1048576 }
    ensures padded { (result ≡ pad4 n) × (n ≤ result) × (result < n + 4) }
{
    (n + 3) / 4 * 4
}

// `n` octets from `at`, and 0 behind them.
pub fn part<const N: usize>(s: &[u8], at: usize, n: usize) -> [u8; N]
    requires { (at + n ≤ length s.now) × (n ≤ N) }
    ensures part { result ≡ part_of s.now at n N }
{
    let mut a = [0; N];
    super::put::copy(&mut a, &s[at..at + n]);
    a
}
