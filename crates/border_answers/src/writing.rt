// The writer's state, and what its calls hand back.
ghost use Rattle.std.specs.Prelude.{◌≡◌};
ghost use Rattle.writer_state.specs.Written.{written_of};
ghost use Rattle.border_answers.specs.AnswersOut.{writer_in, written_out};

use border_records::VerdictRecord;
use writer_state::{Writer, Written};

// Of which kind and form the route is, and the present place.
#[repr(C)]
#[derive(Clone, Copy)]
pub struct WriterRecord {
    pub ero: u8,
    pub form: u8,
    pub at: usize,
}

#[repr(C)]
#[derive(Clone, Copy)]
pub struct WrittenRecord {
    pub verdict: VerdictRecord,
    pub writer: WriterRecord,
}

pub fn writer_in(w: WriterRecord) -> Writer
    ensures writer { result ≡ writer_in w }
{
    Writer {
        ero: w.ero != 0,
        at: w.at,
        form: w.form,
    }
}

pub fn written_out(w: Written) -> WrittenRecord
    ensures written { result ≡ written_out (written_of w) }
{
    WrittenRecord {
        verdict: border_records::passed_out(w.answer),
        writer: WriterRecord {
            ero: u8::from(w.writer.ero),
            form: w.writer.form,
            at: w.writer.at,
        },
    }
}
