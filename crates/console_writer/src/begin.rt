// `begin ero PST SIZE`, `begin rro PST SIZE`
ghost use Rattle.std.specs.Prelude.{◌≤◌, ◌≡◌, length, take};
ghost use Rattle.writer_begin_finish.specs.Ends.{begin_answer, begin_buffer};
ghost use Rattle.writer_state.specs.Written.{written_of};
ghost use Rattle.printing.specs.Text.{Behind};
ghost use Rattle.console_lines.specs.Lines.{short};
ghost use Rattle.console_writer.specs.WriterLines.{fresh_buffer, begin_turn};

use crate::wrote::{Composed, placed};
use command::Command;
use console_state::fit;
use objects::HEADER;
use writer_state::{Writer, Written};

// what a new buffer holds
const FRESH: u8 = 0xEE;

#[tactic(auto, unfolding(crate::specs::WriterLines::fresh_buffer))]
fn fill(buffer: &mut [u8])
    ensures filled { buffer.new ≡ fresh_buffer (length buffer.old) }
{
    buffer.fill(FRESH);
}

// A new buffer, and a route begun in it.
fn fresh(part: &mut [u8], old: Writer, ero: bool, pst: u64) -> Written
    ensures answer { written_of result ≡ begin_answer (fresh_buffer (length part.old)) old ero pst }
    ensures buffer { part.new ≡ begin_buffer (fresh_buffer (length part.old)) old ero }
{
    fill(part);
    writer_begin_finish::begin(part, old, ero, pst)
}

// Whether a begin is refused is asked with a buffer of its own, so that the writer keeps what it had.
pub fn begun(old: Writer, size: usize, c: Command, memory: &mut [u8], out: &mut [u8]) -> Composed
    requires { (c.three ≤ length memory.old) × (short ≤ length out.old) }
    ensures writer { result.writer ≡ (begin_turn old (take size memory.old) c).writer }
    ensures lent { take result.size memory.new ≡ (begin_turn old (take size memory.old) c).lent }
    ensures told { Behind out.old out.new 0 result.end (begin_turn old (take size memory.old) c).answer }
{
    let new = c.three as usize;
    let mut trial = [0u8; HEADER];
    let k = fit(&trial, new);
    let w = writer_begin_finish::begin(&mut trial[..k], old, c.ero, c.two);
    if w.answer.is_err() {
        return Composed {
            writer: old,
            size,
            end: placed(out, w),
        };
    }
    let b = fresh(&mut memory[..new], old, c.ero, c.two);
    Composed {
        writer: b.writer,
        size: new,
        end: placed(out, b),
    }
}
