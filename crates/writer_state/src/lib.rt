// The writer's state, and what its calls answer (document 01, "Writing a route"). The state goes in by value and each call hands it back, unchanged on refusal.
#![tactic(auto)]

ghost use Rattle.std.specs.Prelude.{◌≡◌};
ghost use Rattle.answers.specs.Reasons.{number_of};
ghost use Rattle.writer_state.specs.Written.{written_of};
ghost use Rattle.writer_state.specs.Answers.{refused_as, accepted_as};

use answers::{Reason, Refusal};

// The setup types of the two forms, as the state keeps them.
pub const MPLS_SETUP: u8 = objects::MPLS_SETUP as u8;

pub const SRV6_SETUP: u8 = objects::SRV6_SETUP as u8;

// Whether the object is an ERO or an RRO, the present place in the lent buffer, and the setup type that names the form: 1 is MPLS, any other SRv6.
#[derive(Clone, Copy)]
pub struct Writer {
    pub ero: bool,
    pub at: usize,
    pub form: u8,
}

// What a call answers, and the state for the next one. The state stands beside the result and not in its Ok, since a refusal too hands it back.
#[derive(Clone, Copy)]
pub struct Written {
    pub answer: Result<(), Refusal>,
    pub writer: Writer,
}

// A refusal, which names no place, hands the state back as it was.
pub fn refuse(reason: Reason, old: Writer) -> Written
    ensures refused { written_of result ≡ refused_as (number_of reason) old }
{
    Written {
        answer: Err(Refusal { reason, place: 0 }),
        writer: old,
    }
}

// An acceptance hands on the state that follows.
pub fn accept(new: Writer) -> Written
    ensures accepted { written_of result ≡ accepted_as new }
{
    Written {
        answer: Ok(()),
        writer: new,
    }
}
