// Sub-TLV 27 of TLV 34, SRv6's capability (document 01, "The OPEN object"). The list of setup types is `setup_types`, MPLS's capability `capability_mpls`.
#![tactic(auto)]

mod srv6;

pub use srv6::{SRV6_CAPABILITY, SRV6_FORM, announced};
