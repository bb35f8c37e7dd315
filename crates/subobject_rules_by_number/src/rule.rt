// The rules of a subobject by their numbers: the place that a refusal names, and whether the rule is broken.
ghost use Rattle.std.specs.Prelude.{◌≡◌, ◌<◌, length};
ghost use Rattle.forms.specs.Sized.{Sized};
ghost use Rattle.subobject.specs.Layout.{sid_place};
ghost use Rattle.subobject.specs.Rules.{rule11, rule29, rule30, bits_at, label_at, time_at, subject_by, broken_by, place_by};

use forms::Form;
use subobject::Head;

// The place that a refusal by this number names, for the subobject at `at`. The number is any: the law `unplaced` is about those that name none.
pub fn place(at: usize, number: usize) -> usize
    ensures place { result ≡ place_by at number }
{
    if number == answers::NAI_UNKNOWN {
        return at;
    }
    if number == answers::NOTHING_THERE {
        return at;
    }
    if number == answers::LENGTH_WRONG {
        return at;
    }
    if number == answers::SID_NEEDED {
        return at;
    }
    if number == answers::STRUCTURE_TOO_LONG {
        return at;
    }
    0
}

// 11 for the subobject at `at`. Only a structure's octets are read.
pub fn too_long(form: Form, h: Head, s: &[u8], at: usize) -> bool
    requires { (at < length s.now) × Sized form }
    ensures broken { result ≡ rule11 h (bits_at form h s.now at) }
{
    if subobject::structured(h) {
        let fixed = usize::from(form.fixed);
        let sid = usize::from(form.sid);
        let nai = forms::nai_length(form, h.nt);
        return subobject_rules::eleven(h, subobject_rules::sum_at(s, at + fixed + sid + nai));
    }
    false
}

// 29 for the subobject at `at`. Only a label's octets are read.
pub fn bad_label(form: Form, h: Head, s: &[u8], at: usize) -> bool
    requires { (at < length s.now) × Sized form }
    ensures broken { result ≡ rule29 h (label_at s.now (sid_place form at)) }
{
    if label_rules::labelled(h) {
        let p = at + usize::from(form.fixed);
        return label_rules::twenty_nine(h, label_entry::label_at(s, p));
    }
    false
}

// 30 for the subobject at `at`.
pub fn bad_format(form: Form, h: Head, s: &[u8], at: usize) -> bool
    requires { (at < length s.now) × Sized form }
    ensures broken { result ≡ rule30 h (time_at s.now (sid_place form at)) }
{
    if label_rules::labelled(h) {
        let p = at + usize::from(form.fixed);
        return label_rules::thirty(h, label_entry::time_at(s, p));
    }
    false
}

// Whether the subobject at `at`, with the head h, breaks the rule of this number. Any number may be asked, as `broken_by` answers for any: a `Reason` would ask more of callers.
// The parameters are those of `subject_by`, one by one, as each rule takes of them what it asks for; a struct of them would be made in each turn of the one walk that calls.
pub fn breaks(form: Form, h: Head, s: &[u8], ero: bool, n: bool, at: usize, number: usize) -> bool
    requires { (at < length s.now) × Sized form }
    ensures broken { result ≡ broken_by (subject_by form h s.now ero n at) number }
{
    if number == answers::NAI_UNKNOWN {
        return subobject_rules::eight(form, h);
    }
    if number == answers::NOTHING_THERE {
        return subobject_rules::nine(h);
    }
    if number == answers::LENGTH_WRONG {
        return subobject_rules::seven(form, h);
    }
    if number == answers::SID_NEEDED {
        return subobject_rules::ten(h, ero, n);
    }
    if number == answers::STRUCTURE_TOO_LONG {
        return too_long(form, h, s, at);
    }
    if number == answers::LABEL_VALUE {
        return bad_label(form, h, s, at);
    }
    if number == answers::LABEL_FORMAT {
        return bad_format(form, h, s, at);
    }
    false
}
