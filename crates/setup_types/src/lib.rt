// TLV 34 holds 3 reserved octets, a count n, n setup types padded to 4, then sub-TLVs (document 01, "The OPEN object").
#![tactic(auto)]

ghost use Rattle.std.specs.Prelude.{◌≡◌, ◌+◌, ◌≤◌, ◌<◌, length, eqb};
ghost use Rattle.std.specs.List.{list_any};
ghost use Rattle.setup_types.specs.SetupTypes.{types_at, list_size, lists_type};

// The type of the TLV.
pub const PATH_SETUP: usize = 34;

// The place of the count.
const COUNT_AT: usize = 3;

// The place of the first setup type.
const TYPES_AT: usize = 4;

// Whether x is among the octets. No `contains`: it looks at many octets at a time in a function of its own, and for the few of a list that misses a bar of speed.
fn has(p: &[u8], x: u8) -> bool
    ensures found { result ≡ list_any (λ y. eqb y x) p.now }
{
    p.iter().any(|y| *y == x)
}

// The octets of a value of TLV 34 up to its sub-TLVs: as many as its count asks for, there or not.
#[tactic(auto, unfolding(crate::specs::SetupTypes::list_size))]
pub fn list_size(v: &[u8]) -> usize
    ensures size { (result ≡ list_size v.now) × (types_at ≤ result) × (result < 264) }
{
    TYPES_AT + octets::padded(octets::octet(v, COUNT_AT))
}

// Whether a setup type is listed. Padding is no setup type.
#[tactic(auto, unfolding(crate::specs::SetupTypes::list_size))]
pub fn lists(v: &[u8], kind: u8) -> bool
    requires { list_size v.now ≤ length v.now }
    ensures listed { result ≡ lists_type v.now kind }
{
    let end = TYPES_AT + octets::octet(v, COUNT_AT);
    has(&v[TYPES_AT..end], kind)
}
