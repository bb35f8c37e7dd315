// What a word says as octets: pairs of hexadecimal digits with nothing between them, in either case;
// `-` stands for no octets at all (console.md). A pair is one octet, its first digit worth 16.
#![tactic(auto)]

ghost use Rattle.std.specs.Prelude.{◌≡◌, ◌*◌, ◌%◌, ◌<◌, ◌≤◌, length};
ghost use Rattle.std.specs.List.{list_all};
ghost use Rattle.octets.specs.Octets.{over};
ghost use Rattle.hexadecimal.specs.Hexadecimal.{digit_value, hex_code, is_hex, pair_of, all_pairs, is_octets, octets_of, is_sid, is_nai};

use decimal::is_none;
use objects::{NAI_SIZE, SID_SIZE};

// What a digit is worth, if it is one.
fn digit(c: u8) -> Option<u8>
    ensures digit { result ≡ digit_value c }
{
    match c {
        b'0'..=b'9' => Some(c - b'0'),
        b'A'..=b'F' => Some(c - b'A' + 10),
        b'a'..=b'f' => Some(c - b'a' + 10),
        _ => None,
    }
}

// The same, and 0 for any other octet.
fn worth(c: u8) -> u8
    ensures worth { (result ≡ hex_code c % 16) × (result < 16) }
{
    digit(c).unwrap_or(0)
}

// The octet that two digits spell.
fn pair(a: u8, b: u8) -> u8
    ensures pair { result ≡ pair_of a b }
{
    worth(a) * 16 + worth(b)
}

fn is_digit(c: u8) -> bool
    ensures digit { result ≡ is_hex c }
{
    digit(c).is_some()
}

// Is every octet a digit?
fn all_digits(word: &[u8]) -> bool
    ensures digits { result ≡ list_all is_hex word.now }
{
    word.iter().all(|c| is_digit(*c))
}

// Are these pairs of digits and nothing else?
fn all_pairs(word: &[u8]) -> bool
    ensures pairs { result ≡ all_pairs word.now }
{
    word.len() % 2 == 0 && all_digits(word)
}

// Is this one pair or more, or `-`?
#[tactic(auto, unfolding(crate::specs::Hexadecimal::is_octets))]
pub fn is_octets(word: &[u8]) -> bool
    ensures octets { result ≡ is_octets word.now }
{
    is_none(word) || !word.is_empty() && all_pairs(word)
}

// How many octets a word spells.
pub fn octets_in(word: &[u8]) -> usize
    ensures count { result ≡ length (octets_of word.now) }
{
    word.len() / 2
}

// `-`, or 1 to 16 octets
#[tactic(auto, unfolding(crate::specs::Hexadecimal::is_sid))]
pub fn is_sid(word: &[u8]) -> bool
    ensures sid { result ≡ is_sid word.now }
{
    is_octets(word) && octets_in(word) <= SID_SIZE
}

// `-`, or up to 40 octets
#[tactic(auto, unfolding(crate::specs::Hexadecimal::is_nai))]
pub fn is_nai(word: &[u8]) -> bool
    ensures nai { result ≡ is_nai word.now }
{
    is_octets(word) && octets_in(word) <= NAI_SIZE
}

// The octets that a word spells, laid over the start of `out`, and their number.
pub fn decode(word: &[u8], out: &mut [u8]) -> usize
    requires { length word.now ≤ 2 * length out.old }
    ensures decoded { (result ≡ length (octets_of word.now)) × (out.new ≡ over (octets_of word.now) out.old) }
{
    for n in 0..word.len() / 2 {
        out[n] = pair(word[n * 2], word[n * 2 + 1]);
    }
    octets_in(word)
}
