// The rules of a label, 29 and 30, for a subobject whose SID is there whole if it has one.
ghost use Rattle.std.specs.Prelude.{◌≡◌, ◌+◌, ◌≤◌, length};
ghost use Rattle.forms.specs.Forms.{entry_size};
ghost use Rattle.subobject.specs.Layout.{sid_place, sid_length};
ghost use Rattle.subobject.specs.Rules.{rule29, rule30, label_at, time_at};

use forms::{ENTRY_SIZE, Form};
use subobject::Head;

// The label of the label stack entry at a place.
fn label(s: &[u8], at: usize) -> usize
    requires { at + entry_size ≤ length s.now }
    ensures label { result ≡ label_at s.now at }
{
    label_entry::label_at(&s[at..at + ENTRY_SIZE], 0)
}

// Its TTL.
fn time(s: &[u8], at: usize) -> usize
    requires { at + entry_size ≤ length s.now }
    ensures time { result ≡ time_at s.now at }
{
    label_entry::time_at(&s[at..at + ENTRY_SIZE], 0)
}

// 29 for the subobject at `at`. Only a label's octets are read.
pub fn bad_label(form: Form, h: Head, s: &[u8], at: usize) -> bool
    requires { (sid_place form at + sid_length form h.s ≤ length s.now) × (entry_size ≤ form.sid) }
    ensures broken { result ≡ rule29 h (label_at s.now (sid_place form at)) }
{
    if label_rules::labelled(h) {
        let p = at + usize::from(form.fixed);
        return label_rules::twenty_nine(h, label(s, p));
    }
    false
}

// 30 for the subobject at `at`.
pub fn bad_format(form: Form, h: Head, s: &[u8], at: usize) -> bool
    requires { (sid_place form at + sid_length form h.s ≤ length s.now) × (entry_size ≤ form.sid) }
    ensures broken { result ≡ rule30 h (time_at s.now (sid_place form at)) }
{
    if label_rules::labelled(h) {
        let p = at + usize::from(form.fixed);
        return label_rules::thirty(h, time(s, p));
    }
    false
}
