// The SID, the NAI and the SID structure of a segment, laid into what is lent where they are there (document 01, "Writing a route").
#![tactic(auto)]

mod part;

pub use part::{lay_nai, lay_sid, lay_structure};
