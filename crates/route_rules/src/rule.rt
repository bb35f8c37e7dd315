// 13 and 12.
ghost use Rattle.std.specs.Prelude.{◌≡◌, ◌&&◌, ltb};
ghost use Rattle.answers.specs.Verdicts.{verdict_of};
ghost use Rattle.frame.specs.Gathered.{Walkable};
ghost use Rattle.route_rules.specs.Parts.{limited_of};
ghost use Rattle.route_rules.specs.SessionRules.{rule13};

use answers::{Counts, Reason, Refusal};
use forms::Form;

// 13: PST isn't the form's or the form isn't agreed.
pub fn not_agreed(form: Form, agreed: bool, pst: u64) -> bool
    ensures broken { result ≡ rule13 form agreed pst }
{
    !(pst == u64::from(form.setup) && agreed)
}

// Whether there are more segments than `most`; not asked in RRO.
fn past(ero: bool, most: usize, count: usize) -> bool
    ensures past { result ≡ (ero && ltb most count) }
{
    ero && most < count
}

// Last 12: of an acceptance of more segments than the limit.
pub fn limited(
    w: Result<Counts, Refusal>,
    s: &[u8],
    ero: bool,
    limit: Option<usize>,
) -> Result<Counts, Refusal>
    requires { Walkable s.now }
    ensures limited { verdict_of result ≡ limited_of (verdict_of w) s.now ero limit }
{
    let counts = w?;
    match limit {
        None => Ok(counts),
        Some(most) => {
            if past(ero, most, counts.count) {
                return Err(Refusal {
                    reason: Reason::TooManySegments,
                    place: frame::nth(s, most),
                });
            }
            Ok(counts)
        }
    }
}
