// What a command about the writer leaves, and the line for the writer's place.
ghost use Rattle.std.specs.Prelude.{◌≤◌, length};
ghost use Rattle.printing.specs.Text.{Behind};
ghost use Rattle.console_lines.specs.Lines.{short};
ghost use Rattle.writer_state.specs.Written.{written_of};
ghost use Rattle.console_writer.specs.WriterLines.{place_line};

use writer_state::{Writer, Written};

// The writer, the octets of its buffer, and the end of the line in `out`.
#[derive(Clone, Copy)]
pub struct Composed {
    pub writer: Writer,
    pub size: usize,
    pub end: usize,
}

// `0 0 AT`, or the refusal.
pub fn placed(out: &mut [u8], w: Written) -> usize
    requires { short ≤ length out.old }
    ensures told { Behind out.old out.new 0 result (place_line (written_of w)) }
{
    match w.answer {
        Err(refusal) => console_lines::refusal(out, refusal.reason.number(), refusal.place),
        Ok(()) => console_accepted::one(out, w.writer.at as u64),
    }
}
