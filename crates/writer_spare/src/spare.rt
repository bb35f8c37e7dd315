// Octets kept for a part that is absent or shorter are 0.
ghost use Rattle.std.specs.Prelude.{◌&&◌, ◌||◌, ◌≡◌, ◌*◌, ◌≤◌, length, take, drop};
ghost use Rattle.forms.specs.Forms.{nai_length};
ghost use Rattle.subobject.specs.Layout.{nai_size};
ghost use Rattle.writer_spare.specs.Spare.{zeros};
ghost use Rattle.writer_spare.specs.Lending.{lent_of};

use super::lent::Lent;
use forms::Layout;

// Whether the octets of the first n fours are 0. A four is one number and the loop has no way out: the compiler joins the numbers and makes one test.
fn fours_blank(s: &[u8], n: usize) -> bool
    requires { 4 * n ≤ length s.now }
    ensures blank { result ≡ zeros (take (4 * n) s.now) }
{
    let mut all = true;
    for i in 0..n {
        all &= octet_sums::four(s, 4 * i) == 0;
    }
    all
}

// Whether all octets are 0, one by one.
fn each_blank(s: &[u8]) -> bool
    ensures blank { result ≡ zeros s.now }
{
    s.iter().fold(0, |most: u8, x| most.max(*x)) == 0
}

// Whether all octets are 0. Where the compiler knows how many there are, none is left behind the fours.
fn blank(s: &[u8]) -> bool
    ensures blank { result ≡ zeros s.now }
{
    let fours = s.len() / 4;
    fours_blank(s, fours) && each_blank(&s[4 * fours..])
}

// Whether all octets kept for a SID are 0.
pub fn sid_blank(sid: &[u8; 16]) -> bool
    ensures blank { result ≡ zeros sid.now }
{
    blank(sid)
}

// Whether the octets behind a SID are 0. One of SRv6 fills what is kept for it.
pub fn sid_tidy<L: Layout>(sid: &[u8; 16]) -> bool
    ensures tidy { result ≡ zeros (drop L.layout.sid sid.now) }
{
    blank(&sid[usize::from(L::form().sid)..])
}

// Whether the octets behind an NAI of n octets are 0.
fn behind(nai: &[u8; 40], n: usize) -> bool
    requires { n ≤ nai_size }
    ensures blank { result ≡ zeros (drop n nai.now) }
{
    blank(&nai[n..])
}

// The same. Each length stands in an arm of its own, so that the compiler knows how many octets there are to look at.
fn nai_tidy<L: Layout>(nai: &[u8; 40], n: usize) -> bool
    requires { n ≤ nai_size }
    ensures tidy { result ≡ zeros (drop n nai.now) }
{
    match n {
        0 => behind(nai, 0),
        forms::IPV4_NODE_SIZE => behind(nai, forms::IPV4_NODE_SIZE),
        forms::IPV4_ADJACENCY_SIZE => behind(nai, forms::IPV4_ADJACENCY_SIZE),
        forms::NODE_SIZE => behind(nai, forms::NODE_SIZE),
        forms::ADJACENCY_SIZE => behind(nai, forms::ADJACENCY_SIZE),
        forms::LINK_LOCAL_SIZE => behind(nai, forms::LINK_LOCAL_SIZE),
        _ => behind(nai, n),
    }
}

// Whether the octets kept for an NAI of n octets and for four bit lengths are 0 where these do not stand.
pub fn rest_tidy<L: Layout>(x: Lent<'_>, n: usize) -> bool
    requires { n ≤ nai_size }
    ensures tidy { let g = lent_of x.entry in result ≡ ((g.structured || zeros g.structure) && zeros (drop n g.nai)) }
{
    // A variable, since the borrow checker does not follow a lent array that a field shows as a slice.
    let bits = x.structure;
    nai_tidy::<L>(x.nai, n) && (x.outline.structured || blank(bits))
}

// Whether the octets behind the NAI of an NT are 0.
fn behind_nt<L: Layout>(nai: &[u8; 40], nt: usize) -> bool
    ensures blank { result ≡ zeros (drop (nai_length L.layout nt) nai.now) }
{
    behind(nai, forms::nai_length(L::form(), nt))
}

// The same. Each NT stands in an arm of its own, so that the compiler knows how many octets there are to look at. The longest NAI and none, which are the most
// common, are asked first, by their octets.
#[tactic(auto, unfolding(forms::specs::Forms::nai_length))]
fn nai_tidy_of_nt<L: Layout>(nai: &[u8; 40], nt: usize) -> bool
    ensures tidy { result ≡ zeros (drop (nai_length L.layout nt) nai.now) }
{
    let n = forms::nai_length(L::form(), nt);
    if n == forms::LINK_LOCAL_SIZE {
        return behind(nai, forms::LINK_LOCAL_SIZE);
    }
    if n == 0 {
        return behind(nai, 0);
    }
    match nt {
        forms::IPV4_NODE => behind_nt::<L>(nai, forms::IPV4_NODE),
        forms::NODE => behind_nt::<L>(nai, forms::NODE),
        forms::IPV4_ADJACENCY => behind_nt::<L>(nai, forms::IPV4_ADJACENCY),
        forms::ADJACENCY => behind_nt::<L>(nai, forms::ADJACENCY),
        forms::UNNUMBERED => behind_nt::<L>(nai, forms::UNNUMBERED),
        forms::LINK_LOCAL => behind_nt::<L>(nai, forms::LINK_LOCAL),
        _ => behind(nai, 0),
    }
}

// The same of the NAI of the segment's own NT.
pub fn rest_tidy_of_nt<L: Layout>(x: Lent<'_>) -> bool
    ensures tidy { let g = lent_of x.entry in result ≡ ((g.structured || zeros g.structure) && zeros (drop (nai_length L.layout g.nt) g.nai)) }
{
    // A variable, since the borrow checker does not follow a lent array that a field shows as a slice.
    let bits = x.structure;
    nai_tidy_of_nt::<L>(x.nai, usize::from(x.outline.nt)) && (x.outline.structured || blank(bits))
}
