// The judgement of a route: what one pass accepts; else all rules in their order.
ghost use Rattle.std.specs.Prelude.{◌≡◌, true, false};
ghost use Rattle.answers.specs.Verdicts.{verdict_of};
ghost use Rattle.forms.specs.Forms.{form_of};
ghost use Rattle.route_rules.specs.SessionRules.{past, rule13};
ghost use Rattle.route_pass.specs.Settled.{SettledBy};
ghost use Rattle.route.specs.Parts.{session_by};
ghost use Rattle.route.specs.Routes.{judge_of};

use answers::{Counts, Refusal};
use forms::{Mpls, Srv6};
use route_ordered::judge_as;
use route_pass::STRAY_WORTH;
use route_rules::not_agreed;
use session::Session;

// What one pass settles of a route in which nothing is wrong.
fn seen(s: &[u8], ero: bool, n: bool, pst: u64) -> usize
    ensures settled { SettledBy (form_of pst) s.now ero n result }
{
    if !frame_rules::is_headed(s, ero) {
        return 0;
    }
    if pst == objects::MPLS_SETUP {
        return route_pass::see::<Mpls>(s, ero, n);
    }
    route_pass::see::<Srv6>(s, ero, n)
}

// Whether a route of so many segments that the pass settled is accepted: the form is agreed, and where there is a limit, there are no more segments.
fn accepts(agreed: bool, limit: Option<usize>, pst: u64, count: usize) -> bool
    ensures accepts { result ≡ true → (rule13 (form_of pst) agreed pst ≡ false) × (past limit count ≡ false) }
{
    if not_agreed(forms::named(pst), agreed, pst) {
        return false;
    }
    match limit {
        None => true,
        Some(most) => count <= most,
    }
}

// The answer by the rules in their order, on a route of the form that the setup type names, SRv6's if it names none.
fn ordered(
    s: &[u8],
    ero: bool,
    agreed: bool,
    n: bool,
    limit: Option<usize>,
    pst: u64,
) -> Result<Counts, Refusal>
    ensures judged { verdict_of result ≡ judge_of s.now ero (session_by agreed n limit) pst }
{
    let session = Session {
        agreed,
        n,
        limit,
        a: false,
        r: false,
        v: None,
        m: None,
    };
    judge_as(forms::named(pst), s, ero, session, pst)
}

// The answer on a route under a session in its parts: six parameters, as a session that is handed on as a record is stored and loaded again on its way.
pub fn judge_parts(
    s: &[u8],
    ero: bool,
    agreed: bool,
    n: bool,
    limit: Option<usize>,
    pst: u64,
) -> Result<Counts, Refusal>
    ensures judged { verdict_of result ≡ judge_of s.now ero (session_by agreed n limit) pst }
{
    let x = seen(s, ero, n, pst);
    if x != 0 {
        let counts = Counts {
            count: x % STRAY_WORTH,
            stray: x / STRAY_WORTH,
        };
        if accepts(agreed, limit, pst, counts.count) {
            return Ok(counts);
        }
    }
    ordered(s, ero, agreed, n, limit, pst)
}

// The answer on a route under a session. It asks the pass and the rules itself: with one caller each the compiler puts them into that, and a long route takes a quarter
// to a third longer.
pub fn judge(s: &[u8], ero: bool, session: Session, pst: u64) -> Result<Counts, Refusal>
    ensures judged { verdict_of result ≡ judge_of s.now ero session pst }
{
    let x = seen(s, ero, session.n, pst);
    if x != 0 {
        let counts = Counts {
            count: x % STRAY_WORTH,
            stray: x / STRAY_WORTH,
        };
        if accepts(session.agreed, session.limit, pst, counts.count) {
            return Ok(counts);
        }
    }
    ordered(s, ero, session.agreed, session.n, session.limit, pst)
}
