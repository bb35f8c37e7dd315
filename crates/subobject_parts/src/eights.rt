// A run of octets in an array that is 0 behind it, eight octets at a time: the compiler then keeps each eight as a number, and no array in memory.
ghost use Rattle.std.specs.Prelude.{◌≡◌, ◌+◌, ◌≤◌, length};
ghost use Rattle.octets.specs.Octets.{part_of};

const EIGHT: usize = 8;

// `a`, which has the first `i` octets of the run, with eight more.
fn more<const N: usize>(a: [u8; N], s: &[u8], at: usize, i: usize) -> [u8; N]
    requires { (at + i + 8 ≤ length s.now) × (i + 8 ≤ N) × (a ≡ part_of s.now at i N) }
    ensures more { result ≡ part_of s.now at (i + 8) N }
{
    let mut b = a;
    octets::lay(&mut b, i, &s[at + i..at + i + EIGHT]);
    b
}

// One eight, two of them, four, five.
fn of_8<const N: usize>(s: &[u8], at: usize) -> [u8; N]
    requires { (at + 8 ≤ length s.now) × (8 ≤ N) }
    ensures part { result ≡ part_of s.now at 8 N }
{
    more([0; N], s, at, 0)
}

fn of_16<const N: usize>(s: &[u8], at: usize) -> [u8; N]
    requires { (at + 16 ≤ length s.now) × (16 ≤ N) }
    ensures part { result ≡ part_of s.now at 16 N }
{
    more(of_8(s, at), s, at, 8)
}

fn of_32<const N: usize>(s: &[u8], at: usize) -> [u8; N]
    requires { (at + 32 ≤ length s.now) × (32 ≤ N) }
    ensures part { result ≡ part_of s.now at 32 N }
{
    more(more(of_16(s, at), s, at, 16), s, at, 24)
}

fn of_40<const N: usize>(s: &[u8], at: usize) -> [u8; N]
    requires { (at + 40 ≤ length s.now) × (40 ≤ N) }
    ensures part { result ≡ part_of s.now at 40 N }
{
    more(of_32(s, at), s, at, 32)
}

// The first `n` octets of a run, of which the compiler knows how many there are.
#[inline(always)]
pub fn run<const N: usize>(s: &[u8], at: usize, n: usize) -> [u8; N]
    requires { (at + n ≤ length s.now) × (n ≤ N) }
    ensures part { result ≡ part_of s.now at n N }
{
    match n {
        forms::IPV4_ADJACENCY_SIZE => of_8(s, at),
        forms::NODE_SIZE => of_16(s, at),
        forms::ADJACENCY_SIZE => of_32(s, at),
        forms::LINK_LOCAL_SIZE => of_40(s, at),
        _ => octets::part(s, at, n),
    }
}
