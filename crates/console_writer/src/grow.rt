// `add L V NT BEHAVIOUR SID NAI STRUCTURE M C`
ghost use Rattle.std.specs.Prelude.{◌≤◌, ◌≡◌, length, take};
ghost use Rattle.printing.specs.Text.{Behind};
ghost use Rattle.console_lines.specs.Lines.{short};
ghost use Rattle.console_state.specs.Rooms.{Spells};
ghost use Rattle.console_add.specs.Added.{AddForm};
ghost use Rattle.console_writer.specs.WriterLines.{add_turn};

use crate::wrote::{Composed, placed};
use command::Line;
use console_add::segment_in;
use console_state::fit;
use writer_state::Writer;

pub fn added(
    old: Writer,
    size: usize,
    line: Line<'_>,
    memory: &mut [u8],
    room: &mut [u8],
    out: &mut [u8],
) -> Composed
    requires { Spells line.octets.now room.old × AddForm line.command line.octets.now × (short ≤ length out.old) }
    ensures writer { result.writer ≡ (add_turn old (take size memory.old) line.entry.command line.entry.octets.now).writer }
    ensures lent { take result.size memory.new ≡ (add_turn old (take size memory.old) line.entry.command line.entry.octets.now).lent }
    ensures told { Behind out.old out.new 0 result.end (add_turn old (take size memory.old) line.entry.command line.entry.octets.now).answer }
{
    let n = fit(memory, size);
    let g = segment_in(line, room);
    let w = writer::add(&mut memory[..n], old, g);
    Composed {
        writer: w.writer,
        size,
        end: placed(out, w),
    }
}
