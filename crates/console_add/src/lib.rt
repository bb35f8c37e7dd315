// The segment of a line `add L V NT BEHAVIOUR SID NAI STRUCTURE M C`.
#![tactic(auto)]

ghost use Rattle.std.specs.Prelude.{◌≤◌, ◌≡◌, length};
ghost use Rattle.subobject.specs.Layout.{sid_size, nai_size};
ghost use Rattle.console_state.specs.Spelled.{octets_in};
ghost use Rattle.console_state.specs.Rooms.{Spells};
ghost use Rattle.console_add.specs.Added.{sid_word, nai_word, sid_in, nai_in, segment_said, AddForm};

use command::{Line, number_at, octets_at};
use subobject::Segment;
use words::{SPACE, word};

// the words SID, NAI, STRUCTURE, M and C, counted from `add`, which is word 0
const SID_WORD: usize = 5;

const NAI_WORD: usize = 6;

const STRUCTURE_WORD: usize = 7;

const LABELLED_WORD: usize = 8;

const COMPLETE_WORD: usize = 9;

fn sid_in(line: &[u8], room: &mut [u8]) -> [u8; 16]
    requires { Spells line.now room.old × (length (octets_in line.now sid_word) ≤ sid_size) }
    ensures sid { result ≡ sid_in line.now }
    ensures room { length room.new ≡ length room.old }
{
    let n = octets_at(line, SID_WORD, room);
    octets::part(room, 0, n)
}

fn nai_in(line: &[u8], room: &mut [u8]) -> [u8; 40]
    requires { Spells line.now room.old × (length (octets_in line.now nai_word) ≤ nai_size) }
    ensures nai { result ≡ nai_in line.now }
    ensures room { length room.new ≡ length room.old }
{
    let n = octets_at(line, NAI_WORD, room);
    octets::part(room, 0, n)
}

pub fn segment_in(line: Line<'_>, room: &mut [u8]) -> Segment
    requires { Spells line.octets.now room.old × AddForm line.command line.octets.now }
    ensures segment { result ≡ segment_said line.entry.command line.entry.octets.now }
    ensures room { length room.new ≡ length room.old }
{
    let Line { command: c, octets } = line;
    let labelled = number_at(octets, LABELLED_WORD) == 1;
    let complete = number_at(octets, COMPLETE_WORD) == 1;
    let sid = sid_in(octets, room);
    let nai = nai_in(octets, room);
    let structure = decimal::structure(word(octets, SPACE, STRUCTURE_WORD));
    Segment {
        loose: c.one == 1,
        verify: c.two == 1,
        nt: c.three as u8,
        behaviour: c.four as u16,
        hassid: !decimal::is_none(word(octets, SPACE, SID_WORD)),
        sid,
        nai,
        structured: !decimal::is_none(word(octets, SPACE, STRUCTURE_WORD)),
        structure,
        labelled,
        complete,
    }
}
