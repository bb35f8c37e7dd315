// A segment added to a route object in a lent buffer (document 01, "Writing a route"; document 02, C-16), by the form that the state names. A refusal changes no octet
// and hands the state back as it was. Add refuses by 8, 9, 7, 11, 29, 30 and 16; the place in these answers is 0.
#![tactic(auto)]

ghost use Rattle.std.specs.Prelude.{◌≡◌};
ghost use Rattle.writer_spare.specs.Lending.{lent_of};
ghost use Rattle.writer_layout.specs.Readable.{Readable};
ghost use Rattle.writer_state.specs.Written.{written_of};
ghost use Rattle.writer.specs.Writing.{add_answer_in, add_buffer_in, add_answer, add_buffer};

use forms::{Layout, Mpls, Srv6};
use subobject::Segment;
use writer_spare::Lent;
use writer_state::{MPLS_SETUP, Writer, Written};

// Writes a segment of a form into the rest of the buffer from the present place on.
pub fn add_in<L: Layout>(buf: &mut [u8], writer: Writer, x: Lent<'_>) -> Written
    requires { Readable L.layout }
    ensures answer { written_of result ≡ add_answer_in buf.old L.layout writer (lent_of x.entry) }
    ensures buffer { buf.new ≡ add_buffer_in buf.old L.layout writer (lent_of x.entry) }
{
    match writer_rules::adding::<L>(x, writer.ero, writer.at, buf.len()) {
        Err(reason) => writer_state::refuse(reason, writer),
        Ok(piece) => {
            writer_layout::write::<L>(&mut buf[writer.at..], piece);
            writer_state::accept(Writer {
                at: writer.at + piece.size,
                ..writer
            })
        }
    }
}

// The same, of the form that the state names.
fn add_lent(buf: &mut [u8], writer: Writer, x: Lent<'_>) -> Written
    ensures answer { written_of result ≡ add_answer buf.old writer (lent_of x.entry) }
    ensures buffer { buf.new ≡ add_buffer buf.old writer (lent_of x.entry) }
{
    if writer.form == MPLS_SETUP {
        return add_in::<Mpls>(buf, writer, x);
    }
    add_in::<Srv6>(buf, writer, x)
}

// The same, of a segment by value.
pub fn add(buf: &mut [u8], writer: Writer, segment: Segment) -> Written
    ensures answer { written_of result ≡ add_answer buf.old writer segment }
    ensures buffer { buf.new ≡ add_buffer buf.old writer segment }
{
    add_lent(
        buf,
        writer,
        Lent {
            outline: subobject::outline_of(segment),
            sid: &segment.sid,
            nai: &segment.nai,
            structure: &segment.structure,
        },
    )
}
