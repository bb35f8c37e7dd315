// Sub-TLV 27 holds 2 reserved octets, 2 flag octets, then pairs of MSD type and MSD value.
// N is the bit worth 2 and X the bit worth 1 of the second flag octet; A and R stand at the positions of set-up.
//
// It must have an even length of at least 4: else 1. X is 0 and a pair's type is unknown: 3.
// With X set the pairs are not looked at, and there is no limit.
ghost use Rattle.std.specs.Prelude.{◌≡◌};
ghost use Rattle.session.specs.Answered.{srv6_of};
ghost use Rattle.capability.specs.Srv6.{announced_of};

use answers::Reason;
use flag_positions::Positions;
use msd::Depths;
use objects::SRV6_SETUP;
use session::{AtFault, OpenRefusal, Srv6Half};

// The type of the sub-TLV.
pub const SRV6_CAPABILITY: usize = 27;

// The number of the form at fault where its value breaks a rule.
pub const SRV6_FORM: usize = SRV6_SETUP as usize;

// 1: a wrong length. 3: a pair's type is unknown.
const MALFORMED: OpenRefusal = OpenRefusal {
    reason: Reason::OpenMalformed,
    form: Some(AtFault::Srv6),
};

const WRONG_PAIR: OpenRefusal = OpenRefusal {
    reason: Reason::WrongMsd,
    form: Some(AtFault::Srv6),
};

// The places of the two flag octets, and what N and X are worth in the second.
const BOTH_FLAGS_AT: usize = 2;

const FLAGS_AT: usize = 3;

const WORTH_N: usize = 2;

const WORTH_X: usize = 1;

// The place of the first pair.
const PAIRS_AT: usize = 4;

// What a side that lists setup type 3 announces by the value of its sub-TLV 27.
pub fn announced(p: Positions, w: &[u8]) -> Result<Srv6Half, OpenRefusal>
    ensures announced { srv6_of result ≡ announced_of p w.now }
{
    if w.len() % 2 != 0 || w.len() < PAIRS_AT {
        return Err(MALFORMED);
    }
    let flags = octets::octet(w, FLAGS_AT);
    let n = flags / WORTH_N % 2 == 1;
    let all = octets::read16(w, BOTH_FLAGS_AT);
    let a = flag_positions::flag(all, p.a);
    let r = flag_positions::flag(all, p.r);
    if flags / WORTH_X % 2 == 1 {
        return Ok(Srv6Half {
            n,
            limit: None,
            a,
            r,
            v: None,
            m: None,
        });
    }
    let Some(Depths { encaps, left }) = msd::gather(&w[PAIRS_AT..]) else {
        return Err(WRONG_PAIR);
    };
    Ok(Srv6Half {
        n,
        limit: msd_limit::limit(encaps, left),
        a,
        r,
        v: encaps,
        m: left,
    })
}
