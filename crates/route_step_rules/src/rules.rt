// The rules of a step through a route of one form.
ghost use Rattle.std.specs.Prelude.{◌≡◌, ◌+◌, ◌≤◌, ◌<◌, length};
ghost use Rattle.answers.specs.Verdicts.{passed_of};
ghost use Rattle.route_step_rules.specs.StepRules.{head_verdict, step_verdict};

use super::refusal::refused;
use answers::{Reason, Refusal};
use forms::Layout;
use subobject::Head;

// The first broken rule of a subobject with this head. A label is read only where its octets are there, behind a length that was found right.
fn rules_at<L: Layout>(h: Head, s: &[u8], at: usize) -> Result<(), Refusal>
    requires { (at < length s.now) × (at + h.size ≤ length s.now) }
    ensures verdict { passed_of result ≡ head_verdict L.layout h s.now at }
{
    let form = L::form();
    if h.kind != usize::from(form.kind) {
        return refused(Reason::NoneOfForm, 0);
    }
    if subobject_rules::eight(form, h) {
        return refused(Reason::NaiUnknown, at);
    }
    if subobject_rules::nine(h) {
        return refused(Reason::NothingThere, at);
    }
    if subobject_rules::seven(form, h) {
        return refused(Reason::LengthWrong, at);
    }
    if subobject_rules_by_number::too_long(form, h, s, at) {
        return refused(Reason::StructureTooLong, at);
    }
    if route_step_tests::bad_label(form, h, s, at) {
        return refused(Reason::LabelValue, 0);
    }
    if route_step_tests::bad_format(form, h, s, at) {
        return refused(Reason::LabelFormat, 0);
    }
    Ok(())
}

// The first broken rule at a place.
pub fn verdict<L: Layout>(s: &[u8], ero: bool, at: usize) -> Result<(), Refusal>
    ensures verdict { passed_of result ≡ step_verdict L.layout s.now ero at }
{
    if route_step_tests::is_outside(s, at) {
        return refused(Reason::NoSuchSegment, 0);
    }
    if route_step_tests::is_unfit(s, at) {
        return refused(Reason::FrameBroken, 0);
    }
    rules_at::<L>(subobject::head_at(L::form(), s, ero, at), s, at)
}
