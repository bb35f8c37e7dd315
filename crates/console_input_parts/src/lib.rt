// A part of what was read, up to the end of a line, and the number of a line (console.md): "A line is what lies between two
// newlines; the newline is no part of it, a carriage return is"; "N counting all lines from 1".
#![tactic(auto)]

ghost use Rattle.std.specs.Prelude.{◌≡◌, ◌+◌, ◌%◌, ◌^◌, ◌≤◌, length, drop};
ghost use Rattle.words.specs.Words.{newline, until_mark};

use words::{NEWLINE, word};

// What was read from `at` on, up to the next newline.
pub fn part(read: &[u8], at: usize) -> &[u8]
    requires { at ≤ length read.now }
    ensures part { (result.now ≡ until_mark (drop at read.now) newline) × (at + length result.now ≤ length read.now) }
{
    word(&read[at..], NEWLINE, 0)
}

// The number of the line behind so many, of 64 bits.
pub fn numbered(lines: u64) -> u64
    ensures number { result ≡ (lines + 1) % 2 ^ 64 }
{
    lines.wrapping_add(1)
}
