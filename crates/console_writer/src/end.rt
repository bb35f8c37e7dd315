// `finish`, `lent`
ghost use Rattle.std.specs.Prelude.{◌+◌, ◌*◌, ◌≤◌, ◌≡◌, length, take};
ghost use Rattle.writer_begin_finish.specs.Ends.{finish_answer, finish_buffer};
ghost use Rattle.printing.specs.Text.{Behind};
ghost use Rattle.console_lines.specs.Lines.{short};
ghost use Rattle.console_writer.specs.WriterLines.{finish_turn, finish_line, lent_line};

use crate::wrote::Composed;
use console_state::fit;
use writer_state::Writer;

// The writer after a finish, and the end of the line.
#[derive(Clone, Copy)]
struct Closed {
    writer: Writer,
    end: usize,
}

// Finishes the route in the part that is lent.
fn close(part: &mut [u8], old: Writer, out: &mut [u8]) -> Closed
    requires { 2 * length part.old + short ≤ length out.old }
    ensures writer { result.writer ≡ (finish_answer part.old old).writer }
    ensures buffer { part.new ≡ finish_buffer part.old old }
    ensures told { Behind out.old out.new 0 result.end (finish_line old part.old) }
{
    let w = writer_begin_finish::finish(part, old);
    match w.answer {
        Err(refusal) => Closed {
            writer: w.writer,
            end: console_lines::refusal(out, refusal.reason.number(), refusal.place),
        },
        Ok(()) => {
            let n = fit(part, w.writer.at);
            Closed {
                writer: w.writer,
                end: console_accepted::octets(out, &part[..n]),
            }
        }
    }
}

pub fn finished(old: Writer, size: usize, memory: &mut [u8], out: &mut [u8]) -> Composed
    requires { 2 * length memory.old + short ≤ length out.old }
    ensures writer { result.writer ≡ (finish_turn old (take size memory.old)).writer }
    ensures lent { take result.size memory.new ≡ (finish_turn old (take size memory.old)).lent }
    ensures told { Behind out.old out.new 0 result.end (finish_turn old (take size memory.old)).answer }
{
    let n = fit(memory, size);
    let c = close(&mut memory[..n], old, out);
    Composed {
        writer: c.writer,
        size,
        end: c.end,
    }
}

pub fn shown(memory: &[u8], size: usize, out: &mut [u8]) -> usize
    requires { 2 * length memory.now + short ≤ length out.old }
    ensures told { Behind out.old out.new 0 result (lent_line (take size memory.now)) }
{
    let n = fit(memory, size);
    console_accepted::octets(out, &memory[..n])
}
