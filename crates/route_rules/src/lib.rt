// The rules of a whole route that hang on its session (document 01, "The route object"): 13, the setup type isn't the form's or the form isn't agreed, before the
// subobjects; 12, more segments than the limit, last. In RRO 12 isn't applied.
#![tactic(auto)]

mod rule;

pub use rule::{limited, not_agreed};
