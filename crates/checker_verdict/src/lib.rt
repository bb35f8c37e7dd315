// What the checking program answers: PCC OPEN, PCE OPEN and ERO one behind the other, each cut off by its own
// length field, judged under setup type 3. The first refusal is the answer, or the ERO's verdict; octets
// behind the ERO are ignored (document 01, the last paragraph of "Examples on either side"). A and R stand at the positions
// 0 and 1, and the head end has no addresses (document 02, C-15).
#![tactic(auto)]

ghost use Rattle.std.specs.Prelude.{◌≡◌};
ghost use Rattle.answers.specs.Verdicts.{verdict_of};
ghost use Rattle.checker_verdict.specs.Checking.{checked_of};

use answers::{Counts, Refusal, Verdict};
use cut_objects::{first, rest};
use objects::SRV6_SETUP;

// The answer on three objects.
fn answer(s: &[u8]) -> Result<Counts, Refusal>
    ensures checked { verdict_of result ≡ checked_of s.now }
{
    let behind = rest(s);
    let p = flag_positions::first_two();
    let pcc = open::read_open(p, first(s))?;
    let pce = open::read_open(p, first(behind))?;
    let session = session::agree(Some(pcc), Some(pce));
    route_call::judge(first(rest(behind)), true, session, SRV6_SETUP, &s[..0])
}

// The verdict on them.
pub fn check(s: &[u8]) -> Verdict
    ensures checked { result ≡ checked_of s.now }
{
    answers::told(answer(s))
}
