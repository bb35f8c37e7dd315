// How the lines of an OPEN and of a segment end (console.md): the words behind the first ones, laid behind a text.
#![tactic(auto)]

ghost use Rattle.std.specs.Prelude.{◌+◌, ◌≤◌, ◌≡◌, length};
ghost use Rattle.printing.specs.Text.{Behind, field_size, spaced};
ghost use Rattle.console_lines.specs.Lines.{further_words};
ghost use Rattle.session.specs.Answered.{carried_of};
ghost use Rattle.console_line_ends.specs.Ends.{limit_text, depth_text, mpls_words, mpls_end_size, flag_words, flags_end_size, stray_words, strays_end_size, label_words, labels_end_size};

use console_lines::END;
use printing::Text;
use session::{Carried, NO_MPLS, NO_SRV6};
use subobject_strays::Strays;
use words::{DASH, SPACE};

// ` -`
pub const NONE_FIELD: [u8; 2] = [SPACE, DASH];

// A space and a number, or `-`.
pub fn limit_field(text: &mut Text, limit: Option<usize>)
    requires { text.old.at + field_size ≤ length text.old.out.now }
    ensures same_reference { text.new.out.ghost_name ≡ text.old.out.ghost_name }
    ensures behind { Behind text.old.out.now text.new.out.now text.old.at text.new.at (spaced (limit_text limit)) }
    ensures short { text.new.at ≤ text.old.at + field_size }
{
    match limit {
        None => text.push(&NONE_FIELD),
        Some(n) => text.field(n as u64),
    }
}

// A space and a number, or `-`.
fn depth_field(text: &mut Text, d: Option<u8>)
    requires { text.old.at + field_size ≤ length text.old.out.now }
    ensures same_reference { text.new.out.ghost_name ≡ text.old.out.ghost_name }
    ensures behind { Behind text.old.out.now text.new.out.now text.old.at text.new.at (spaced (depth_text d)) }
    ensures short { text.new.at ≤ text.old.at + field_size }
{
    match d {
        None => text.push(&NONE_FIELD),
        Some(v) => text.field(u64::from(v)),
    }
}

// ` MPLS MN MLIMIT`, and the end of the line.
fn mpls_end(text: &mut Text, carried: Carried)
    requires { text.old.at + mpls_end_size ≤ length text.old.out.now }
    ensures same_reference { text.new.out.ghost_name ≡ text.old.out.ghost_name }
    ensures behind { Behind text.old.out.now text.new.out.now text.old.at text.new.at (further_words (mpls_words (carried_of carried))) }
    ensures short { text.new.at ≤ text.old.at + mpls_end_size }
{
    let mpls = carried.mpls.unwrap_or(NO_MPLS);
    text.field(u64::from(carried.mpls.is_some()));
    text.field(u64::from(mpls.n));
    limit_field(text, mpls.limit);
    text.push(&END);
}

// ` A R V M MPLS MN MLIMIT`, and the end of the line.
pub fn flags_end(text: &mut Text, carried: Carried)
    requires { text.old.at + flags_end_size ≤ length text.old.out.now }
    ensures same_reference { text.new.out.ghost_name ≡ text.old.out.ghost_name }
    ensures behind { Behind text.old.out.now text.new.out.now text.old.at text.new.at (further_words (flag_words (carried_of carried))) }
    ensures short { text.new.at ≤ text.old.at + flags_end_size }
{
    let srv6 = carried.srv6.unwrap_or(NO_SRV6);
    text.field(u64::from(srv6.a));
    text.field(u64::from(srv6.r));
    depth_field(text, srv6.v);
    depth_field(text, srv6.m);
    mpls_end(text, carried);
}

// ` FLAGS SFLAGS RESERVED`, and the end of the line.
fn strays_end(text: &mut Text, x: Strays)
    requires { text.old.at + strays_end_size ≤ length text.old.out.now }
    ensures same_reference { text.new.out.ghost_name ≡ text.old.out.ghost_name }
    ensures behind { Behind text.old.out.now text.new.out.now text.old.at text.new.at (further_words (stray_words x)) }
    ensures short { text.new.at ≤ text.old.at + strays_end_size }
{
    text.field(u64::from(x.flags));
    text.field(u64::from(x.structure));
    text.field(u64::from(x.reserved));
    text.push(&END);
}

// ` M C FLAGS SFLAGS RESERVED`, and the end of the line.
pub fn labels_end(text: &mut Text, m: bool, c: bool, x: Strays)
    requires { text.old.at + labels_end_size ≤ length text.old.out.now }
    ensures same_reference { text.new.out.ghost_name ≡ text.old.out.ghost_name }
    ensures behind { Behind text.old.out.now text.new.out.now text.old.at text.new.at (further_words (label_words m c x)) }
    ensures short { text.new.at ≤ text.old.at + labels_end_size }
{
    text.field(u64::from(m));
    text.field(u64::from(c));
    strays_end(text, x);
}
