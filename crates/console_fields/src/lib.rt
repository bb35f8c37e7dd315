// What an OPEN carries and what a segment says, as lines (console.md). Each call lays a line over the start of a
// lent buffer and hands its end back.
#![tactic(auto)]

ghost use Rattle.std.specs.Prelude.{◌+◌, ◌*◌, ◌≤◌, ◌≡◌, cond, true, length, take};
ghost use Rattle.subobject.specs.Layout.{sid_size, nai_size};
ghost use Rattle.forms.specs.Forms.{nai_length};
ghost use Rattle.forms.specs.Sized.{Sized};
ghost use Rattle.printing.specs.Text.{Behind, field_size, spaced, octets_text};
ghost use Rattle.session.specs.Answered.{carried_of, opened_of};
ghost use Rattle.console_fields.specs.Shown.{long, open_line, opened_line, structure_text, head_text, parts_text, parts_size, segment_line};

use console_line_ends::{NONE_FIELD, flags_end, labels_end, limit_field};
use console_lines::ACCEPTED;
use forms::Form;
use printing::{JOINT, Text};
use session::{Carried, NO_SRV6, OpenRefusal};
use subobject::Segment;
use subobject_strays::Strays;

// the octets that the line of an OPEN or of a segment takes at most
pub const LONG: usize = 512;

// `0 0 SRV6 N LIMIT A R V M MPLS MN MLIMIT`
fn carried_line(out: &mut [u8], carried: Carried) -> usize
    requires { long ≤ length out.old }
    ensures told { Behind out.old out.new 0 result (open_line (carried_of carried)) }
    ensures within { result ≤ long }
{
    let srv6 = carried.srv6.unwrap_or(NO_SRV6);
    let mut text = Text::new(out);
    text.push(&ACCEPTED);
    text.field(u64::from(carried.srv6.is_some()));
    text.field(u64::from(srv6.n));
    limit_field(&mut text, srv6.limit);
    flags_end(&mut text, carried);
    text.at
}

// An OPEN's answer, a refusal too.
pub fn opened(out: &mut [u8], answer: Result<Carried, OpenRefusal>) -> usize
    requires { long ≤ length out.old }
    ensures told { Behind out.old out.new 0 result (opened_line (opened_of answer)) }
    ensures within { result ≤ long }
{
    match answer {
        Ok(carried) => carried_line(out, carried),
        Err(refusal) => {
            console_lines::open_refusal(out, refusal.reason.number(), refusal.form_number())
        }
    }
}

// A space and four numbers joined by commas.
fn bits_field(text: &mut Text, bits: [u8; 4])
    requires { text.old.at + 4 * field_size ≤ length text.old.out.now }
    ensures same_reference { text.new.out.ghost_name ≡ text.old.out.ghost_name }
    ensures behind { Behind text.old.out.now text.new.out.now text.old.at text.new.at (spaced (structure_text bits true)) }
    ensures short { text.new.at ≤ text.old.at + 4 * field_size }
{
    let [a, b, c, d] = bits;
    text.field(u64::from(a));
    text.push(&JOINT);
    text.number(u64::from(b));
    text.push(&JOINT);
    text.number(u64::from(c));
    text.push(&JOINT);
    text.number(u64::from(d));
}

// The same, or `-` for none.
fn structure_field(text: &mut Text, bits: [u8; 4], there: bool)
    requires { text.old.at + 4 * field_size ≤ length text.old.out.now }
    ensures same_reference { text.new.out.ghost_name ≡ text.old.out.ghost_name }
    ensures behind { Behind text.old.out.now text.new.out.now text.old.at text.new.at (spaced (structure_text bits there)) }
    ensures short { text.new.at ≤ text.old.at + 4 * field_size }
{
    if there {
        bits_field(text, bits);
    } else {
        text.push(&NONE_FIELD);
    }
}

// A space and the SID, or `-` for none.
fn sid_field(text: &mut Text, form: Form, sid: [u8; 16], there: bool)
    requires room { text.old.at + (2 * sid_size + 2) ≤ length text.old.out.now }
    requires sid { form.sid ≤ sid_size }
    ensures same_reference { text.new.out.ghost_name ≡ text.old.out.ghost_name }
    ensures behind { Behind text.old.out.now text.new.out.now text.old.at text.new.at (spaced (octets_text (take (cond there form.sid 0) sid))) }
    ensures short { text.new.at ≤ text.old.at + (2 * sid_size + 2) }
{
    let k = if there { usize::from(form.sid) } else { 0 };
    text.octets_field(&sid[..k]);
}

// A space and the NAI, or `-` for none.
fn nai_field(text: &mut Text, form: Form, nai: [u8; 40], nt: usize)
    requires room { text.old.at + (2 * nai_size + 2) ≤ length text.old.out.now }
    requires sized { Sized form }
    ensures same_reference { text.new.out.ghost_name ≡ text.old.out.ghost_name }
    ensures behind { Behind text.old.out.now text.new.out.now text.old.at text.new.at (spaced (octets_text (take (nai_length form nt) nai))) }
    ensures short { text.new.at ≤ text.old.at + (2 * nai_size + 2) }
{
    let n = forms::nai_length(form, nt);
    text.octets_field(&nai[..n]);
}

// ` L V NT BEHAVIOUR`
fn head_fields(text: &mut Text, g: Segment)
    requires { text.old.at + 4 * field_size ≤ length text.old.out.now }
    ensures same_reference { text.new.out.ghost_name ≡ text.old.out.ghost_name }
    ensures behind { Behind text.old.out.now text.new.out.now text.old.at text.new.at (head_text g) }
    ensures short { text.new.at ≤ text.old.at + 4 * field_size }
{
    text.field(u64::from(g.loose));
    text.field(u64::from(g.verify));
    text.field(u64::from(g.nt));
    text.field(u64::from(g.behaviour));
}

// ` SID NAI STRUCTURE`
fn part_fields(text: &mut Text, form: Form, g: Segment)
    requires room { text.old.at + parts_size ≤ length text.old.out.now }
    requires sized { Sized form }
    ensures same_reference { text.new.out.ghost_name ≡ text.old.out.ghost_name }
    ensures behind { Behind text.old.out.now text.new.out.now text.old.at text.new.at (parts_text form g) }
    ensures short { text.new.at ≤ text.old.at + parts_size }
{
    sid_field(text, form, g.sid, g.hassid);
    nai_field(text, form, g.nai, usize::from(g.nt));
    structure_field(text, g.structure, g.structured);
}

// `0 0 L V NT BEHAVIOUR SID NAI STRUCTURE M C FLAGS SFLAGS RESERVED`, of a segment of a form
pub fn segment(out: &mut [u8], form: Form, g: Segment, x: Strays) -> usize
    requires { (long ≤ length out.old) × (Sized form) }
    ensures told { Behind out.old out.new 0 result (segment_line form g x) }
    ensures within { result ≤ long }
{
    let mut text = Text::new(out);
    text.push(&ACCEPTED);
    head_fields(&mut text, g);
    part_fields(&mut text, form, g);
    labels_end(&mut text, g.labelled, g.complete, x);
    text.at
}
