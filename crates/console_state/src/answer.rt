// The line that answers a call: the refusal, or what stands in the table when accepted.
ghost use Rattle.std.specs.Prelude.{◌≤◌, length};
ghost use Rattle.answers.specs.Verdicts.{passed_of, verdict_of};
ghost use Rattle.printing.specs.Text.{Behind};
ghost use Rattle.console_lines.specs.Lines.{short};
ghost use Rattle.console_state.specs.Answers.{count_line, plain_line};

use answers::{Counts, Refusal};

// `0 0 COUNT STRAY`, or the refusal.
pub fn counted(out: &mut [u8], answer: Result<Counts, Refusal>) -> usize
    requires { short ≤ length out.old }
    ensures told { Behind out.old out.new 0 result (count_line (verdict_of answer)) }
{
    match answer {
        Ok(c) => console_accepted::two(out, c.count as u64, c.stray as u64),
        Err(e) => console_lines::refusal(out, e.reason.number(), e.place),
    }
}

// `0 0`, or the refusal.
pub fn plain(out: &mut [u8], answer: Result<(), Refusal>) -> usize
    requires { short ≤ length out.old }
    ensures told { Behind out.old out.new 0 result (plain_line (passed_of answer)) }
{
    match answer {
        Ok(()) => console_accepted::done(out),
        Err(refusal) => console_lines::refusal(out, refusal.reason.number(), refusal.place),
    }
}
