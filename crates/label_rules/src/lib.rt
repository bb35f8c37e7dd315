// The rules of a label, 29 and 30 (document 02, C-16).
#![tactic(auto)]

ghost use Rattle.std.specs.Prelude.{◌≡◌};
ghost use Rattle.subobject.specs.Rules.{rule29, rule30, has_label};

use subobject::Head;

// of the labels below 16 only 7 may stand in a route
pub const FIRST_FREE: usize = 16;

pub const GOOD_LABEL: usize = 7;

// Whether a label stands where the SID does.
#[tactic(auto, unfolding(subobject::specs::Rules::has_label))]
pub fn labelled(h: Head) -> bool
    ensures labelled { result ≡ has_label h }
{
    h.s == 0 && h.m == 1
}

// A label up to 15 that is not 7.
#[tactic(auto, unfolding(subobject::specs::Rules::rule29))]
pub fn twenty_nine(h: Head, label: usize) -> bool
    ensures broken { result ≡ rule29 h label }
{
    labelled(h) && label < FIRST_FREE && label != GOOD_LABEL
}

// M and C with a TTL of 0.
#[tactic(auto, unfolding(subobject::specs::Rules::rule30))]
pub fn thirty(h: Head, time: usize) -> bool
    ensures broken { result ≡ rule30 h time }
{
    labelled(h) && h.c == 1 && time == 0
}
