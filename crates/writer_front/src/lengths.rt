// The octets before an NAI, with what has to be 0 or absent there, and those of the NAI.
ghost use Rattle.std.specs.Prelude.{◌≡◌, cond, ◌≤◌, Some, None};
ghost use Rattle.forms.specs.Forms.{nai_length};
ghost use Rattle.subobject.specs.Rules.{malformed};
ghost use Rattle.subobject.specs.Segments.{head_of_outline};
ghost use Rattle.writer_front.specs.Foreign.{foreign};
ghost use Rattle.writer_front.specs.Front.{strayed, barred, lead};

use forms::Layout;
use subobject::Outline;
use writer_spare::Lent;

// What the form has no flag and no place for: M, C, a structure, an endpoint behaviour.
#[tactic(auto, unfolding(crate::specs::Foreign::foreign))]
fn foreign<L: Layout>(o: Outline) -> bool
    ensures foreign { result ≡ foreign L.layout o }
{
    let form = L::form();
    (form.m == 0 && o.labelled)
        || (form.c == 0 && o.complete)
        || (form.t == 0 && o.structured)
        || (!form.behaves && o.behaviour != 0)
}

// M or C without a SID, or C without M.
fn ill<L: Layout>(o: Outline) -> bool
    ensures ill { result ≡ malformed (head_of_outline L.layout o) }
{
    if o.labelled { !o.hassid } else { o.complete }
}

// A structure without a SID, or octets behind a SID that are not 0.
#[tactic(auto, unfolding(crate::specs::Front::strayed))]
fn strayed<L: Layout>(x: Lent<'_>) -> bool
    ensures strayed { result ≡ strayed L.layout x.entry.outline x.entry.sid.now }
{
    if x.outline.hassid {
        !writer_spare::sid_tidy::<L>(x.sid)
    } else {
        x.outline.structured || !writer_spare::sid_blank(x.sid)
    }
}

// The octets before an NAI; none where the segment is barred.
#[tactic(auto, unfolding(crate::specs::Front::barred))]
pub fn front<L: Layout>(x: Lent<'_>) -> Option<usize>
    ensures front { let o = x.entry.outline in result ≡ cond (barred L.layout o x.entry.sid.now) None (Some (lead L.layout o)) }
{
    if foreign::<L>(x.outline) || ill::<L>(x.outline) || strayed::<L>(x) {
        return None;
    }
    let form = L::form();
    let sid = if x.outline.hassid { form.sid } else { 0 };
    Some(usize::from(form.fixed) + usize::from(sid))
}

// The octets of the NAI for an NT. None and the longest, which are the most common, have an arm of their own, so that the compiler knows their numbers behind it.
pub fn nai_octets<L: Layout>(nt: usize) -> usize
    ensures octets { (result ≡ nai_length L.layout nt) × (result ≤ 255) }
{
    match nt {
        forms::NO_NAI => forms::nai_length(L::form(), forms::NO_NAI),
        forms::LINK_LOCAL => forms::nai_length(L::form(), forms::LINK_LOCAL),
        _ => forms::nai_length(L::form(), nt),
    }
}
