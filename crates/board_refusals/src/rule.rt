// The rules of each call in document 01's order, after 17. The first broken one is the answer, and every place is 0 but
// that of a route check.
ghost use Rattle.std.specs.Prelude.{◌≡◌, true, cond, Some, IfOk, is_some};
ghost use Rattle.answers.specs.Numbers.{key_out_of_range};
ghost use Rattle.answers.specs.Verdicts.{refused_by, accepted_with, carrying_both, answer_of, passed_of, verdict_of};
ghost use Rattle.board_record.specs.Sizes.{places};
ghost use Rattle.board_rules.specs.Rules.{in_range};
ghost use Rattle.board_rules.specs.Report.{report_rules};
ghost use Rattle.board_rules.specs.Remove.{remove_rules};
ghost use Rattle.board_rules.specs.Compact.{compact_rules};
ghost use Rattle.board_rules.specs.Body.{body_rules};
ghost use Rattle.board_rules.specs.Next.{next_rules};
ghost use Rattle.board_rules.specs.Moved.{moved_rules};

use answers::{Counts, Reason, Refusal};
use board_record::{KEY_LEAST, KEY_MOST, ROOM, VERSION_MOST};

// 18
#[tactic(auto, using(octets::proofs::Tests::tests), unfolding(board_rules::specs::Rules::in_range))]
fn key_rule(key: u64) -> Result<(), Refusal>
    ensures range { passed_of result ≡ cond (in_range key) (accepted_with 0) (refused_by key_out_of_range 0) }
{
    if key < KEY_LEAST || KEY_MOST < key {
        return Err(Reason::KeyOutOfRange.into());
    }
    Ok(())
}

// 18, the route checks, 19, 20, 21. `route` is what the route checks answer, n the octets of the body, `target` the place
// that the report takes, if there is one. Acceptance carries that place, and the counts of the route.
#[tactic(auto, using(octets::proofs::Tests::tests), unfolding(board_rules::specs::Rules::in_range, board_rules::specs::Report::report_rules))]
pub fn report_rules(
    key: u64,
    route: Result<Counts, Refusal>,
    n: usize,
    version: u64,
    target: Option<usize>,
) -> Result<(usize, Counts), Refusal>
    ensures first { answer_of (λ a. carrying_both a.1.count a.1.stray) result
        ≡ report_rules true key (verdict_of route) n version (cond (is_some target) 0 places) }
    ensures place { IfOk result (λ a. target ≡ Some a.0) }
{
    key_rule(key)?;
    let counts = route?;
    if ROOM < n {
        return Err(Reason::BodyTooLong.into());
    }
    if version == VERSION_MOST {
        return Err(Reason::VersionsUsedUp.into());
    }
    match target {
        Some(at) => Ok((at, counts)),
        None => Err(Reason::AllPaths.into()),
    }
}

// 18, 22, 20. `path` is the place of the key's path, if it has one; acceptance carries it.
#[tactic(auto, using(octets::proofs::Tests::tests), unfolding(board_rules::specs::Remove::remove_rules, board_rules::specs::Body::body_rules))]
pub fn remove_rules(key: u64, path: Option<usize>, version: u64) -> Result<usize, Refusal>
    ensures first { passed_of result ≡ remove_rules true key (is_some path) version }
    ensures place { IfOk result (λ at. path ≡ Some at) }
{
    let at = body_rules(key, path)?;
    if version == VERSION_MOST {
        return Err(Reason::VersionsUsedUp.into());
    }
    Ok(at)
}

// 24
#[tactic(auto, using(octets::proofs::Tests::tests), unfolding(board_rules::specs::Compact::compact_rules))]
pub fn compact_rules(c: u64, version: u64) -> Result<(), Refusal>
    ensures first { passed_of result ≡ compact_rules true c version }
{
    if version < c {
        return Err(Reason::MarkAhead.into());
    }
    Ok(())
}

// 18, 22. `path` is the place of the key's path, if it has one; acceptance carries it.
#[tactic(auto, using(octets::proofs::Tests::tests), unfolding(board_rules::specs::Body::body_rules))]
pub fn body_rules(key: u64, path: Option<usize>) -> Result<usize, Refusal>
    ensures first { passed_of result ≡ body_rules true key (is_some path) }
    ensures place { IfOk result (λ at. path ≡ Some at) }
{
    key_rule(key)?;
    match path {
        Some(at) => Ok(at),
        None => Err(Reason::NoPath.into()),
    }
}

// 24, 23. A mark at exactly the floor is not too old.
#[tactic(auto, using(octets::proofs::Tests::tests), unfolding(board_rules::specs::Next::next_rules))]
pub fn next_rules(s: u64, w: u64, version: u64, floor: u64) -> Result<(), Refusal>
    ensures first { passed_of result ≡ next_rules true s w version floor }
{
    if version < s || version < w {
        return Err(Reason::MarkAhead.into());
    }
    if s.max(w) < floor {
        return Err(Reason::MarkTooOld.into());
    }
    Ok(())
}

// 24, 23. A version at exactly the floor is not too old.
#[tactic(auto, using(octets::proofs::Tests::tests), unfolding(board_rules::specs::Moved::moved_rules))]
pub fn moved_rules(v: u64, version: u64, floor: u64) -> Result<(), Refusal>
    ensures first { passed_of result ≡ moved_rules true v version floor }
{
    if version < v {
        return Err(Reason::MarkAhead.into());
    }
    if v < floor {
        return Err(Reason::MarkTooOld.into());
    }
    Ok(())
}
