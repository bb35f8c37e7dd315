// Whether one subobject breaks no rule. The rules are not told apart here.
ghost use Rattle.std.specs.Prelude.{◌≡◌, true, false, ◌+◌, ◌≤◌, length};
ghost use Rattle.forms.specs.Forms.{mpls_form, entry_size, nai_length};
ghost use Rattle.subobject.specs.Layout.{expected_length};
ghost use Rattle.subobject.specs.Rules.{rule7, rule11, bits_at, label_at};
ghost use Rattle.subobject.specs.Inner.{OfLength, HeadSound, LabelSound};

use forms::Form;
use subobject::Head;

// The expected length, from the octets of the NAI.
fn expected(form: Form, h: Head, nai: usize) -> usize
    requires { nai ≤ 255 }
    ensures length { nai ≡ nai_length form h.nt → result ≡ expected_length form h.nt h.s h.t }
{
    let fixed = usize::from(form.fixed);
    let sid = subobject::sid_length(form, h.s);
    let structure = if subobject::structured(h) {
        subobject::STRUCTURE_SIZE
    } else {
        0
    };
    fixed + sid + nai + structure
}

// 8, 9, 7 and 10, over the head.
pub fn head_sound(form: Form, h: Head, ero: bool, n: bool) -> bool
    ensures sound { result ≡ true → HeadSound form h ero n }
{
    let nai = forms::nai_length(form, h.nt);
    let bare = h.nt == forms::NO_NAI;
    let unknown = !bare && nai == 0;
    if unknown {
        return false;
    }
    if subobject_rules::nine(h) {
        return false;
    }
    if h.f != usize::from(bare) {
        return false;
    }
    if subobject_rules::is_malformed(h) {
        return false;
    }
    if h.size != expected(form, h, nai) {
        return false;
    }
    !subobject_rules::ten(h, ero, n)
}

// 11. A structure ends a subobject of the expected length.
pub fn structure_sound(form: Form, h: Head, s: &[u8], at: usize) -> bool
    requires { OfLength form h s.now at }
    ensures sound { result ≡ true → rule11 h (bits_at form h s.now at) ≡ false }
{
    if subobject::structured(h) {
        return octet_sums::sum_four_in(s, at + h.size - subobject::STRUCTURE_SIZE)
            <= subobject::MOST_BITS;
    }
    true
}

// The label of the label stack entry at a place. `label_entry::label_at` reads octets past the end as 0; here the entry is there, and the pass asks for no end.
fn label_in(s: &[u8], at: usize) -> usize
    requires { at + entry_size ≤ length s.now }
    ensures label { result ≡ label_at s.now at }
{
    usize::from(s[at]) * label_entry::FIRST_WORTH
        + usize::from(s[at + 1]) * label_entry::SECOND_WORTH
        + usize::from(s[at + 2]) / label_entry::THIRD_PART
}

// 29 and 30.
pub fn label_sound(form: Form, h: Head, s: &[u8], at: usize) -> bool
    requires { (entry_size ≤ form.sid) × OfLength form h s.now at }
    ensures sound { result ≡ true → LabelSound form h s.now at }
{
    if label_rules::labelled(h) {
        let p = at + usize::from(form.fixed);
        if label_rules::twenty_nine(h, label_in(s, p)) {
            return false;
        }
        return !label_rules::thirty(h, usize::from(s[p + label_entry::TIME_PLACE]));
    }
    true
}

// The same of an MPLS subobject that breaks no rule before them: M is 1 only where there is a SID, and a label that is good is known by its first 16 bits, which is
// quicker in the pass over a route of any shapes.
pub fn mpls_label_sound(h: Head, s: &[u8], at: usize) -> bool
    requires { (rule7 mpls_form h ≡ false) × (h.s ≤ 1) × OfLength mpls_form h s.now at }
    ensures sound { result ≡ true → LabelSound mpls_form h s.now at }
{
    if h.m != 1 {
        return true;
    }
    if !label_run::label_good(s, at + label_run::ENTRY_PLACE) {
        return false;
    }
    if h.c != 1 {
        return true;
    }
    s[at + label_run::TTL_PLACE] != 0
}
