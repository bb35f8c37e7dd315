// The form of the words behind a command's name.
ghost use Rattle.std.specs.Prelude.{◌≡◌};
ghost use Rattle.command_forms.specs.Forms.{formed, kinds_of};

use crate::verb::Verb;
use words::{SPACE, count, word};

// Are the words behind the name as the command has them?
pub fn is_formed(line: &[u8], verb: Verb) -> bool
    ensures formed { result ≡ formed (kinds_of verb) line.now }
{
    let kinds = verb.kinds();
    if count(line, SPACE) != kinds.len() + 1 {
        return false;
    }
    for (i, kind) in kinds.iter().enumerate() {
        if !kind.fits(word(line, SPACE, i + 1)) {
            return false;
        }
    }
    true
}
