// The rows of the console's table about the writer: begin, add, finish, lent (console.md). `memory` is the writer's part,
// whole; its buffer lies at the start.
#![tactic(auto)]

ghost use Rattle.std.specs.Prelude.{◌+◌, ◌*◌, ◌≤◌, ◌≡◌, length, take};
ghost use Rattle.printing.specs.Text.{Behind};
ghost use Rattle.command_forms.specs.Forms.{most_size};
ghost use Rattle.command.specs.Commands.{command_of};
ghost use Rattle.command_rows.specs.Rows.{written};
ghost use Rattle.console_lines.specs.Lines.{short};
ghost use Rattle.console_state.specs.Rooms.{Spells};
ghost use Rattle.console_writer_rows.specs.Written.{written_turn};

use command::{Command, Line};
use command_rows::Writing;
use console_writer::{Composed, added, begun, finished, shown};
use writer_state::Writer;

pub fn written(
    row: Writing,
    old: Writer,
    size: usize,
    c: Command,
    line: &[u8],
    memory: &mut [u8],
    room: &mut [u8],
    out: &mut [u8],
) -> Composed
    requires { (c ≡ command_of line.now) × (c.verb ≡ written row) × (length memory.old ≡ most_size) × Spells line.now room.old × (2 * most_size + short ≤ length out.old) }
    ensures writer { result.writer ≡ (written_turn row old (take size memory.old) c line.now).writer }
    ensures lent { take result.size memory.new ≡ (written_turn row old (take size memory.old) c line.now).lent }
    ensures told { Behind out.old out.new 0 result.end (written_turn row old (take size memory.old) c line.now).answer }
{
    match row {
        Writing::Begin => begun(old, size, c, memory, out),
        Writing::Add => {
            let line = Line {
                command: c,
                octets: line,
            };
            added(old, size, line, memory, room, out)
        }
        Writing::Finish => finished(old, size, memory, out),
        Writing::Lent => Composed {
            writer: old,
            size,
            end: shown(memory, size, out),
        },
    }
}
