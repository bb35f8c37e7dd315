// The two forms of a segment, each as its papers lay its subobject out: SRv6 (document 000, 4.3.1) and MPLS (RFC 8664, 4.3.1, and V of document 003).
//
//              SRv6                                   MPLS
//   0          top bit L, low 7 bits the type 40      the type 36
//   1          length of the whole subobject          the same
//   2-3        NT (4 bits), 12 flags: V, T, F, S      V, F, S, C, M, the last the lowest
//   4-5        reserved                               SID, 4, if S is 0: an index, or where M is 1 a label
//   6-7        endpoint behaviour
//   then       SID, 16, if S is 0
//   then       NAI by NT                              NAI by NT
//   then       SID structure, 8, if T is 1 and S is 0
#![tactic(auto)]

ghost use Rattle.std.specs.Prelude.{◌≡◌, ◌≤◌};
ghost use Rattle.forms.specs.Forms.{srv6_form, mpls_form, form_of, flag_in, nai_length, knows};

mod layouts;

pub use layouts::{Layout, Mpls, Srv6};
use objects::{MPLS_SETUP, NAI_SIZE, SID_SIZE, SRV6_SETUP};

// values of NT: no NAI; a node of IPv4 and of IPv6; an adjacency of either; one of two nodes with an interface of each; one of link-local addresses
pub const NO_NAI: usize = 0;

pub const IPV4_NODE: usize = 1;

pub const NODE: usize = 2;

pub const IPV4_ADJACENCY: usize = 3;

pub const ADJACENCY: usize = 4;

pub const UNNUMBERED: usize = 5;

pub const LINK_LOCAL: usize = 6;

// the octets of these NAIs
pub const IPV4_NODE_SIZE: usize = 4;

pub const NODE_SIZE: usize = 16;

pub const IPV4_ADJACENCY_SIZE: usize = 8;

pub const ADJACENCY_SIZE: usize = 32;

pub const UNNUMBERED_SIZE: usize = 16;

// the longest, for which a segment has room
pub const LINK_LOCAL_SIZE: usize = NAI_SIZE;

// what the octet of an NT is worth among the lengths of NAIs
const NT1: u64 = 256;

const NT2: u64 = 65536;

const NT3: u64 = 16777216;

const NT4: u64 = 4294967296;

const NT5: u64 = 1099511627776;

const NT6: u64 = 281474976710656;

// 1 for NT 0 and for each NT of these
pub const EACH_NT: u64 = 1 + NT1 + NT2 + NT3 + NT4 + NT5 + NT6;

// the lengths of SRv6's NAIs and of MPLS's
const SRV6_NAIS: u64 = NODE_SIZE as u64 * NT2
    + ADJACENCY_SIZE as u64 * NT4
    + LINK_LOCAL_SIZE as u64 * NT6;

pub const MPLS_NAIS: u64 = SRV6_NAIS
    + IPV4_NODE_SIZE as u64 * NT1
    + IPV4_ADJACENCY_SIZE as u64 * NT3
    + UNNUMBERED_SIZE as u64 * NT5;

// what S is worth in octet 3 of MPLS; its octets before the SID; those of a label stack entry, which its SID has
pub const MPLS_S: usize = 4;

pub const MPLS_FIXED: usize = 4;

pub const ENTRY_SIZE: usize = 4;

// the last NT that a form may know
const LAST_NT: usize = LINK_LOCAL;

// A form in numbers. A flag worth 0 is one that the form has not; an NAI of no octets belongs to an NT that it does not know.
#[derive(Clone, Copy)]
pub struct Form {
    // the setup type that names it, and the type of its subobjects
    pub setup: u8,
    pub kind: u8,
    // the octets before the SID, and those of the SID
    pub fixed: u8,
    pub sid: u8,
    // what V, T, F, S, C and M are worth in octet 3, and the lowest flag that is not assigned
    pub v: u8,
    pub t: u8,
    pub f: u8,
    pub s: u8,
    pub c: u8,
    pub m: u8,
    pub free: u8,
    // whether octets 4 and 5 are reserved and octets 6 and 7 the endpoint behaviour
    pub behaves: bool,
    // the octets of the NAI for NT 1 to 6, an octet each, worth NT1 to NT6
    pub nais: u64,
}

pub fn srv6() -> Form
    ensures form { result ≡ srv6_form }
{
    Form {
        setup: SRV6_SETUP as u8,
        kind: 40,
        fixed: 8,
        sid: SID_SIZE as u8,
        v: 8,
        t: 4,
        f: 2,
        s: 1,
        c: 0,
        m: 0,
        free: 16,
        behaves: true,
        nais: SRV6_NAIS,
    }
}

pub fn mpls() -> Form
    ensures form { result ≡ mpls_form }
{
    Form {
        setup: MPLS_SETUP as u8,
        kind: 36,
        fixed: MPLS_FIXED as u8,
        sid: ENTRY_SIZE as u8,
        v: 16,
        t: 0,
        f: 8,
        s: MPLS_S as u8,
        c: 2,
        m: 1,
        free: 32,
        behaves: false,
        nais: MPLS_NAIS,
    }
}

// The form that a setup type names, SRv6's if it names none.
pub fn named(pst: u64) -> Form
    ensures form { result ≡ form_of pst }
{
    if pst == MPLS_SETUP {
        return mpls();
    }
    srv6()
}

// The flag that is worth `worth` in an octet, as a number: clauses count with it (`Forms.flag_in`). One that the form has not is a flag that is 0, no missing one.
pub fn flag(octet: usize, worth: u8) -> usize
    ensures flag { (result ≡ flag_in octet worth) × (result ≤ 1) }
{
    let w = usize::from(worth);
    if w == 0 {
        return 0;
    }
    octet / w % 2
}

// The octets of the NAI for an NT: its octet of the lengths. No NAI is one of no octets, and its length, 0, is added up like any other (`Forms.nai_length`): no Option.
pub fn nai_length(form: Form, nt: usize) -> usize
    ensures length { (result ≡ nai_length form nt) × (result ≤ 255) }
{
    if nt == NO_NAI {
        return 0;
    }
    if LAST_NT < nt {
        return 0;
    }
    ((form.nais >> (8 * nt)) % 256) as usize
}

// Whether the form knows an NT; NT 0, no NAI, is known to all.
#[tactic(auto, unfolding(crate::specs::Forms::knows))]
pub fn known(form: Form, nt: usize) -> bool
    ensures known { result ≡ knows form nt }
{
    nt == NO_NAI || nai_length(form, nt) != 0
}
