// The lines of an acceptance: `0 0`, words separated by one space, and a newline (console.md). Each call lays a line over
// the start of a lent buffer and hands its end back.
#![tactic(auto)]

ghost use Rattle.std.specs.Prelude.{◌+◌, ◌*◌, ◌≤◌, length};
ghost use Rattle.printing.specs.Text.{Behind, field_size};
ghost use Rattle.console_lines.specs.Lines.{short, done_line, one_line, two_line, octets_line, form_line, list_line, path_line, removed_line, level_line};

use console_lines::{ACCEPTED, END};
use printing::Text;

// `0 0`
pub fn done(out: &mut [u8]) -> usize
    requires { short ≤ length out.old }
    ensures told { Behind out.old out.new 0 result (done_line) }
    ensures within { result ≤ short }
{
    let mut text = Text::new(out);
    text.push(b"0 0\n");
    text.at
}

// `0 0 A`
pub fn one(out: &mut [u8], a: u64) -> usize
    requires { short ≤ length out.old }
    ensures told { Behind out.old out.new 0 result (one_line a) }
    ensures within { result ≤ short }
{
    let mut text = Text::new(out);
    text.push(&ACCEPTED);
    text.field(a);
    text.push(&END);
    text.at
}

// `0 0 A B`
pub fn two(out: &mut [u8], a: u64, b: u64) -> usize
    requires { short ≤ length out.old }
    ensures told { Behind out.old out.new 0 result (two_line a b) }
    ensures within { result ≤ short }
{
    let mut text = Text::new(out);
    text.push(&ACCEPTED);
    text.field(a);
    text.field(b);
    text.push(&END);
    text.at
}

// `0 0 OCTETS`
pub fn octets(out: &mut [u8], s: &[u8]) -> usize
    requires { 2 * length s.now + short ≤ length out.old }
    ensures told { Behind out.old out.new 0 result (octets_line s.now) }
    ensures within { result ≤ 2 * length s.now + short }
{
    let mut text = Text::new(out);
    text.push(&ACCEPTED);
    text.octets_field(s);
    text.push(&END);
    text.at
}

// `0 0 FORM OCTETS`
pub fn formed(out: &mut [u8], form: u64, s: &[u8]) -> usize
    requires { 2 * length s.now + short ≤ length out.old }
    ensures told { Behind out.old out.new 0 result (form_line form s.now) }
    ensures within { result ≤ 2 * length s.now + short }
{
    let mut text = Text::new(out);
    text.push(&ACCEPTED);
    text.field(form);
    text.octets_field(s);
    text.push(&END);
    text.at
}

// `0 0 LIST`
pub fn list(out: &mut [u8], s: &[u8]) -> usize
    requires { field_size * length s.now + short ≤ length out.old }
    ensures told { Behind out.old out.new 0 result (list_line s.now) }
    ensures within { result ≤ field_size * length s.now + short }
{
    let mut text = Text::new(out);
    text.push(&ACCEPTED);
    text.list_field(s);
    text.push(&END);
    text.at
}

// `0 0 path KEY VERSION FORM OCTETS`
pub fn path(out: &mut [u8], key: u64, version: u64, form: u64, s: &[u8]) -> usize
    requires { 2 * length s.now + short ≤ length out.old }
    ensures told { Behind out.old out.new 0 result (path_line key version form s.now) }
    ensures within { result ≤ 2 * length s.now + short }
{
    let mut text = Text::new(out);
    text.push(b"0 0 path");
    text.field(key);
    text.field(version);
    text.field(form);
    text.octets_field(s);
    text.push(&END);
    text.at
}

// `0 0 removed KEY VERSION`
pub fn removed(out: &mut [u8], key: u64, version: u64) -> usize
    requires { short ≤ length out.old }
    ensures told { Behind out.old out.new 0 result (removed_line key version) }
    ensures within { result ≤ short }
{
    let mut text = Text::new(out);
    text.push(b"0 0 removed");
    text.field(key);
    text.field(version);
    text.push(&END);
    text.at
}

// `0 0 level VERSION`
pub fn level(out: &mut [u8], version: u64) -> usize
    requires { short ≤ length out.old }
    ensures told { Behind out.old out.new 0 result (level_line version) }
    ensures within { result ≤ short }
{
    let mut text = Text::new(out);
    text.push(b"0 0 level");
    text.field(version);
    text.push(&END);
    text.at
}
