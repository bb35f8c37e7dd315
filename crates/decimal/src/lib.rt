// What a word says as a number: decimal digits and nothing else, 0 to 2^64-1, leading zeros allowed.
// A structure is four numbers of 0 to 255 joined by commas, or `-` for none (console.md).
#![tactic(auto)]

ghost use Rattle.std.specs.Prelude.{◌≡◌, ◌%◌};
ghost use Rattle.decimal.specs.Decimal.{is_none, said, digit_value, number_of, is_number, decimal_value, is_at_most, is_structure, structure_of};

use words::{COMMA, NONE, word};

// the largest number of one octet, and of two
pub const MOST_OCTET: u64 = 255;

pub const MOST_TWO_OCTETS: u64 = (octets::END16 - 1) as u64;

// The number that a word says, if it says one.
fn number(word: &[u8]) -> Option<u64>
    ensures number { said result ≡ number_of word.now }
{
    if word.is_empty() {
        return None;
    }
    let mut v: u64 = 0;
    for c in word {
        let d = digit(*c)?;
        v = v.checked_mul(10)?.checked_add(d)?;
    }
    Some(v)
}

pub fn is_number(word: &[u8]) -> bool
    ensures number { result ≡ is_number word.now }
{
    number(word).is_some()
}

// The number that a word says, 0 where it says none.
pub fn value(word: &[u8]) -> u64
    ensures value { result ≡ decimal_value word.now }
{
    number(word).unwrap_or(0)
}

// Is this a number of at most `most`?
pub fn at_most(word: &[u8], most: u64) -> bool
    ensures small { result ≡ is_at_most word.now most }
{
    number(word).is_some_and(|n| n <= most)
}

#[tactic(auto, unfolding(crate::specs::Decimal::is_none))]
pub fn is_none(word: &[u8]) -> bool
    ensures none { result ≡ is_none word.now }
{
    word == &NONE[..]
}

// Is this four numbers of 0 to 255 joined by commas, or none?
#[tactic(auto, unfolding(crate::specs::Decimal::is_structure))]
pub fn is_structure(w: &[u8]) -> bool
    ensures structure { result ≡ is_structure w.now }
{
    is_none(w)
        || words::count(w, COMMA) == 4
            && (at_most(word(w, COMMA, 0), MOST_OCTET) && at_most(word(w, COMMA, 1), MOST_OCTET))
            && (at_most(word(w, COMMA, 2), MOST_OCTET) && at_most(word(w, COMMA, 3), MOST_OCTET))
}

// The four numbers of a structure, 0 where it is none.
#[tactic(auto, unfolding(crate::specs::Decimal::structure_of))]
pub fn structure(w: &[u8]) -> [u8; 4]
    ensures structure { result ≡ structure_of w.now }
{
    let a = low_octet(value(word(w, COMMA, 0)));
    let b = low_octet(value(word(w, COMMA, 1)));
    let c = low_octet(value(word(w, COMMA, 2)));
    let d = low_octet(value(word(w, COMMA, 3)));
    [a, b, c, d]
}

// What a digit stands for.
fn digit(c: u8) -> Option<u64>
    ensures digit { result ≡ digit_value c }
{
    match c {
        b'0'..=b'9' => Some(u64::from(c - b'0')),
        _ => None,
    }
}

// The lowest octet of a number, which may be larger than an octet.
fn low_octet(n: u64) -> u8
    ensures low { result ≡ n % 256 }
{
    (n % 256) as u8
}
