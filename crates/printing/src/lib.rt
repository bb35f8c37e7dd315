// Answers as text, laid into a lent buffer word by word: numbers in decimal, octets as pairs of hexadecimal
// digits in upper case, `-` for no octets, lists of numbers joined by commas (console.md).
#![tactic(auto)]

ghost use Rattle.std.specs.Prelude.{◌+◌, ◌*◌, ◌≤◌, ◌≡◌, length};
ghost use Rattle.printing.specs.Text.{Behind, number_size, field_size, decimal_of, glyph_of, hex_of, octets_text, further_text, list_text, spaced};

use words::{COMMA, NONE, SPACE};

// the octets that a number takes at most
const NUMBER_SIZE: usize = 20;

const GAP: [u8; 1] = [SPACE];

// `,`
pub const JOINT: [u8; 1] = [COMMA];

// A text at the start of a lent buffer, and its end.
#[derive(Drop)]
pub struct Text<'a> {
    pub out: &'a mut [u8],
    pub at: usize,
}

impl<'a> Text<'a> {
    // An empty text.
    pub fn new(out: &'a mut [u8]) -> Self
        ensures same_reference { result.out.ghost_name ≡ out.entry.ghost_name }
        ensures empty { (result.at ≡ 0) × (result.out.now ≡ out.old) }
    {
        Text { out, at: 0 }
    }

    // `src` behind the text.
    pub fn push(&mut self, src: &[u8])
        requires { self.old.at + length src.now ≤ length self.old.out.now }
        ensures same_reference { self.new.out.ghost_name ≡ self.old.out.ghost_name }
        ensures behind { Behind self.old.out.now self.new.out.now self.old.at self.new.at (src.now) }
    {
        octets::lay(self.out, self.at, src);
        self.at += src.len();
    }

    // The digits of a number.
    pub fn number(&mut self, n: u64)
        requires { self.old.at + number_size ≤ length self.old.out.now }
        ensures same_reference { self.new.out.ghost_name ≡ self.old.out.ghost_name }
        ensures behind { Behind self.old.out.now self.new.out.now self.old.at self.new.at (decimal_of n) }
        ensures short { self.new.at ≤ self.old.at + number_size }
    {
        let mut text = [0u8; NUMBER_SIZE];
        let k = io::decimal(n, &mut text);
        self.push(&text[..k]);
    }

    // The pairs of digits of octets.
    fn pairs(&mut self, s: &[u8])
        requires { self.old.at + 2 * length s.now ≤ length self.old.out.now }
        ensures same_reference { self.new.out.ghost_name ≡ self.old.out.ghost_name }
        ensures behind { Behind self.old.out.now self.new.out.now self.old.at self.new.at (hex_of s.now) }
    {
        for x in s {
            self.push(&[glyph(*x / 16), glyph(*x % 16)]);
        }
    }

    // The digits of octets, `-` for none.
    pub fn octets(&mut self, s: &[u8])
        requires { self.old.at + 2 * length s.now + 1 ≤ length self.old.out.now }
        ensures same_reference { self.new.out.ghost_name ≡ self.old.out.ghost_name }
        ensures behind { Behind self.old.out.now self.new.out.now self.old.at self.new.at (octets_text s.now) }
        ensures short { self.new.at ≤ self.old.at + 2 * length s.now + 1 }
    {
        if s.is_empty() {
            self.push(&NONE);
        } else {
            self.pairs(s);
        }
    }

    // A space and a number.
    pub fn field(&mut self, n: u64)
        requires { self.old.at + field_size ≤ length self.old.out.now }
        ensures same_reference { self.new.out.ghost_name ≡ self.old.out.ghost_name }
        ensures behind { Behind self.old.out.now self.new.out.now self.old.at self.new.at (spaced (decimal_of n)) }
        ensures short { self.new.at ≤ self.old.at + field_size }
    {
        self.push(&GAP);
        self.number(n);
    }

    // A space and octets.
    pub fn octets_field(&mut self, s: &[u8])
        requires { self.old.at + 2 * length s.now + 2 ≤ length self.old.out.now }
        ensures same_reference { self.new.out.ghost_name ≡ self.old.out.ghost_name }
        ensures behind { Behind self.old.out.now self.new.out.now self.old.at self.new.at (spaced (octets_text s.now)) }
        ensures short { self.new.at ≤ self.old.at + 2 * length s.now + 2 }
    {
        self.push(&GAP);
        self.octets(s);
    }

    // Numbers behind the first of a list, each behind a comma.
    fn further(&mut self, s: &[u8])
        requires { self.old.at + field_size * length s.now ≤ length self.old.out.now }
        ensures same_reference { self.new.out.ghost_name ≡ self.old.out.ghost_name }
        ensures behind { Behind self.old.out.now self.new.out.now self.old.at self.new.at (further_text s.now) }
        ensures short { self.new.at ≤ self.old.at + field_size * length s.now }
    {
        for x in s {
            self.push(&JOINT);
            self.number(u64::from(*x));
        }
    }

    // Numbers joined by commas, `-` for none.
    pub fn list(&mut self, s: &[u8])
        requires { self.old.at + field_size * length s.now + 1 ≤ length self.old.out.now }
        ensures same_reference { self.new.out.ghost_name ≡ self.old.out.ghost_name }
        ensures behind { Behind self.old.out.now self.new.out.now self.old.at self.new.at (list_text s.now) }
        ensures short { self.new.at ≤ self.old.at + field_size * length s.now + 1 }
    {
        match s {
            [] => self.push(&NONE),
            [first, rest @ ..] => {
                self.number(u64::from(*first));
                self.further(rest);
            }
        }
    }

    // A space and a list.
    pub fn list_field(&mut self, s: &[u8])
        requires { self.old.at + field_size * length s.now + 2 ≤ length self.old.out.now }
        ensures same_reference { self.new.out.ghost_name ≡ self.old.out.ghost_name }
        ensures behind { Behind self.old.out.now self.new.out.now self.old.at self.new.at (spaced (list_text s.now)) }
        ensures short { self.new.at ≤ self.old.at + field_size * length s.now + 2 }
    {
        self.push(&GAP);
        self.list(s);
    }
}

// The digit that is worth `d`.
fn glyph(d: u8) -> u8
    requires { d ≤ 15 }
    ensures glyph { result ≡ glyph_of d }
{
    match d {
        0..=9 => b'0' + d,
        _ => b'A' + (d - 10),
    }
}
