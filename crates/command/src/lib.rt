// A line of the console read into a command: the name, the form of the words behind it, and the numbers
// that they say (console.md). A line out of form is `Bad`, whatever its words mean; empty lines and lines
// that begin with `#` are `Skip`.
#![tactic(auto)]

ghost use Rattle.std.specs.Prelude.{◌≡◌, ◌*◌, ◌≤◌, length};
ghost use Rattle.io.specs.Counts.{IsPrefixLen};
ghost use Rattle.octets.specs.Octets.{over};
ghost use Rattle.words.specs.Words.{space, word_of};
ghost use Rattle.hexadecimal.specs.Hexadecimal.{octets_of};
ghost use Rattle.command.specs.Commands.{command_of, skipped, bare_command, number_at};

use command_forms::{ERO, Verb, is_formed};
use decimal::value;
use words::{SPACE, word};

// what begins a comment
const HASH: u8 = b'#';

// the most octets of a line that is no bad line
pub const LONGEST_LINE: usize = 131200;

// What the first four words behind the name say as numbers, 0 where they say none, and whether the first is
// `ero`.
#[derive(Clone, Copy)]
pub struct Command {
    pub verb: Verb,
    pub ero: bool,
    pub one: u64,
    pub two: u64,
    pub three: u64,
    pub four: u64,
}

// A line, and the command that it was read as.
#[derive(Clone, Copy)]
pub struct Line<'a> {
    pub command: Command,
    pub octets: &'a [u8],
}

fn is_skipped(line: &[u8]) -> bool
    ensures skipped { result ≡ skipped line.now }
{
    match line {
        [] => true,
        [first, ..] => *first == HASH,
    }
}

fn alone(verb: Verb) -> Command
    ensures bare { result ≡ bare_command verb }
{
    Command {
        verb,
        ero: false,
        one: 0,
        two: 0,
        three: 0,
        four: 0,
    }
}

// Reads a line.
pub fn parse(line: &[u8]) -> Command
    ensures read { result ≡ command_of line.now }
{
    if is_skipped(line) {
        return alone(Verb::Skip);
    }
    if line.len() > LONGEST_LINE {
        return alone(Verb::Bad);
    }
    let verb = Verb::named(word(line, SPACE, 0));
    if !is_formed(line, verb) {
        return alone(Verb::Bad);
    }
    let ero = word(line, SPACE, 1) == &ERO[..];
    let one = number_at(line, 1);
    let two = number_at(line, 2);
    let three = number_at(line, 3);
    let four = number_at(line, 4);
    Command {
        verb,
        ero,
        one,
        two,
        three,
        four,
    }
}

// The number that word `i` says, 0 where it says none.
pub fn number_at(line: &[u8], i: usize) -> u64
    ensures number { result ≡ number_at line.now i }
{
    value(word(line, SPACE, i))
}

// The octets that word `i` spells, laid over the start of `out`, and their number.
pub fn octets_at(line: &[u8], i: usize, out: &mut [u8]) -> usize
    requires { length line.now ≤ 2 * length out.old }
    ensures octets { (result ≡ length (octets_of (word_of line.now space i))) × (out.new ≡ over (octets_of (word_of line.now space i)) out.old) }
    ensures within { IsPrefixLen result out.new }
    ensures room { length out.new ≡ length out.old }
{
    hexadecimal::decode(word(line, SPACE, i), out)
}
