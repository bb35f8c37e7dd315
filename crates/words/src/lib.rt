// The words of a line. Words are separated by one octet (a space, or a comma inside a structure), so a
// line has one word more than separators; two of them side by side have an empty word between them.
#![tactic(auto)]

ghost use Rattle.std.specs.Prelude.{◌≡◌, ◌≤◌, ◌==◌, length, position};
ghost use Rattle.words.specs.Words.{word_of, words_in, until_mark, behind_mark};

pub const SPACE: u8 = b' ';

pub const COMMA: u8 = b',';

pub const DASH: u8 = b'-';

// the word for none
pub const NONE: [u8; 1] = [DASH];

pub const NEWLINE: u8 = b'\n';

pub const DIGIT_ZERO: u8 = b'0';

pub const DIGIT_NINE: u8 = b'9';

// `A` to `F` and `a` to `f`, as digits worth 10 to 15
pub const UPPER_A: u8 = b'A';

pub const UPPER_F: u8 = b'F';

pub const LOWER_A: u8 = b'a';

pub const LOWER_F: u8 = b'f';

// how far such a letter lies above what it is worth
pub const UPPER_ABOVE: u8 = UPPER_A - 10;

pub const LOWER_ABOVE: u8 = LOWER_A - 10;

// The place of the first `mark`.
fn mark_in(line: &[u8], mark: u8) -> Option<usize>
    ensures first { result ≡ position (λ c. c == mark) line.now }
{
    line.iter().position(|c| *c == mark)
}

// The octets before the first `mark`: all of them where there is none.
fn before(line: &[u8], mark: u8) -> &[u8]
    ensures before { (result.now ≡ until_mark line.now mark) × (length result.now ≤ length line.now) }
{
    match mark_in(line, mark) {
        Some(end) => &line[..end],
        None => line,
    }
}

// The octets behind the first `mark`: none of them where there is none.
fn behind(line: &[u8], mark: u8) -> &[u8]
    ensures behind { (result.now ≡ behind_mark line.now mark) × (length result.now ≤ length line.now) }
{
    match mark_in(line, mark) {
        Some(end) => &line[end + 1..],
        None => &[],
    }
}

// Word `i`, from 0; empty where the line has no such word.
pub fn word(line: &[u8], mark: u8, i: usize) -> &[u8]
    ensures word { (result.now ≡ word_of line.now mark i) × (length result.now ≤ length line.now) }
{
    let mut rest = line;
    for _ in 0..i {
        if rest.is_empty() {
            return rest;
        }
        rest = behind(rest, mark);
    }
    before(rest, mark)
}

// How many words there are: one more than marks.
pub fn count(line: &[u8], mark: u8) -> usize
    ensures count { result ≡ words_in line.now mark }
{
    1 + line.iter().filter(|c| **c == mark).count()
}
