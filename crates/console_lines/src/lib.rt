// The lines of a refusal, of a bad line and of the checking program: words separated by one space, and a newline
// (console.md). Each call lays a line over the start of a lent buffer and hands its end back. What is said when a call
// accepts: `console_accepted`.
#![tactic(auto)]

ghost use Rattle.std.specs.Prelude.{◌≤◌, length};
ghost use Rattle.printing.specs.Text.{Behind};
ghost use Rattle.console_lines.specs.Lines.{short, refusal_line, open_refusal_line, bad_line, verdict_line};

use answers::Verdict;
use printing::Text;
use words::NEWLINE;

// the octets that a line of words and numbers takes at most
pub const SHORT: usize = 128;

// what ends a line
pub const END: [u8; 1] = [NEWLINE];

// `0 0`
pub const ACCEPTED: [u8; 3] = *b"0 0";

// `NUMBER PLACE`
pub fn refusal(out: &mut [u8], number: usize, place: usize) -> usize
    requires { short ≤ length out.old }
    ensures told { Behind out.old out.new 0 result (refusal_line number place) }
    ensures within { result ≤ short }
{
    let mut text = Text::new(out);
    text.number(number as u64);
    text.field(place as u64);
    text.push(&END);
    text.at
}

// `NUMBER 0 FORM`, of an OPEN
pub fn open_refusal(out: &mut [u8], number: usize, form: usize) -> usize
    requires { short ≤ length out.old }
    ensures told { Behind out.old out.new 0 result (open_refusal_line number form) }
    ensures within { result ≤ short }
{
    let mut text = Text::new(out);
    text.number(number as u64);
    text.field(0);
    text.field(form as u64);
    text.push(&END);
    text.at
}

// `bad line N`
pub fn bad(out: &mut [u8], n: u64) -> usize
    requires { short ≤ length out.old }
    ensures told { Behind out.old out.new 0 result (bad_line n) }
    ensures within { result ≤ short }
{
    let mut text = Text::new(out);
    text.push(b"bad line");
    text.field(n);
    text.push(&END);
    text.at
}

// The checking program's line: number, place, count, stray ones.
pub fn whole(out: &mut [u8], v: Verdict) -> usize
    requires { short ≤ length out.old }
    ensures told { Behind out.old out.new 0 result (verdict_line v) }
    ensures within { result ≤ short }
{
    let mut text = Text::new(out);
    text.number(v.number as u64);
    text.field(v.place as u64);
    text.field(v.count as u64);
    text.field(v.stray as u64);
    text.push(&END);
    text.at
}
