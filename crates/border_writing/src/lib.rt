// Writing a route over the records of the border (include/strundevi.h): begun, given one segment at a time, and finished.
// The writer's small state goes in and comes back.
#![tactic(auto)]

ghost use Rattle.std.specs.Prelude.{◌≡◌};
ghost use Rattle.subobject.specs.Segments.{segment_with};
ghost use Rattle.writer_begin_finish.specs.Ends.{begin_answer, begin_buffer, finish_answer, finish_buffer};
ghost use Rattle.writer.specs.Writing.{add_answer_in, add_buffer_in, add_answer, add_buffer};
ghost use Rattle.writer_layout.specs.Readable.{Readable};
ghost use Rattle.writer_state.specs.Written.{written_of};
ghost use Rattle.border_records.specs.Records.{is_yes, bit};
ghost use Rattle.border_segment.specs.Segments.{outline_in};
ghost use Rattle.border_answers.specs.AnswersOut.{writer_in, written_out};

use border_answers::{WriterRecord, WrittenRecord, writer_in, written_out};
use border_segment::OutlineRecord;
use forms::{Layout, Mpls, Srv6};
use writer_spare::Lent;
use writer_state::{Writer, Written};

// What a call hands back, where the record that came has the same kind and form: it goes back as it came, with another place. A caller that loads
// kind and form as one number then does not wait for two octets stored one by one.
fn placed(came: WriterRecord, w: Written) -> WrittenRecord
    requires { (came.ero ≡ bit w.writer.ero) × (came.form ≡ w.writer.form) }
    ensures placed { result ≡ written_out (written_of w) }
{
    let mut kept = came;
    kept.at = w.writer.at;
    WrittenRecord {
        verdict: border_records::passed_out(w.answer),
        writer: kept,
    }
}

// The same of any record that came.
fn handed(came: WriterRecord, w: Written) -> WrittenRecord
    ensures handed { result ≡ written_out (written_of w) }
{
    if came.ero != u8::from(w.writer.ero) {
        return written_out(w);
    }
    if came.form != w.writer.form {
        return written_out(w);
    }
    placed(came, w)
}

// Writes the header with length 4. The setup type names the form, SRv6's if it names none, and the state keeps it.
pub fn begin(buffer: &mut [u8], writer: WriterRecord, ero: u8, pst: u64) -> WrittenRecord
    ensures answer { result ≡ written_out (begin_answer buffer.old (writer_in writer) (is_yes ero) pst) }
    ensures octets { buffer.new ≡ begin_buffer buffer.old (writer_in writer) (is_yes ero) }
{
    let w = writer_begin_finish::begin(buffer, writer_in(writer), ero != 0, pst);
    handed(writer, w)
}

// A segment of a form. Its outline is taken apart here, so that the compiler takes of it only what that form looks at.
fn added_in<L: Layout>(
    buffer: &mut [u8],
    state: Writer,
    outline: OutlineRecord,
    sid: &[u8; 16],
    nai: &[u8; 40],
    structure: &[u8; 4],
) -> Written
    requires { Readable L.layout }
    ensures answer { written_of result ≡ add_answer_in buffer.old L.layout state (segment_with (outline_in outline) sid.now nai.now structure.now) }
    ensures octets { buffer.new ≡ add_buffer_in buffer.old L.layout state (segment_with (outline_in outline) sid.now nai.now structure.now) }
{
    let outline = border_segment::outline_in(outline);
    writer::add_in::<L>(
        buffer,
        state,
        Lent {
            outline,
            sid,
            nai,
            structure,
        },
    )
}

// A segment of the form that the state names.
fn added(
    buffer: &mut [u8],
    state: Writer,
    outline: OutlineRecord,
    sid: &[u8; 16],
    nai: &[u8; 40],
    structure: &[u8; 4],
) -> Written
    ensures answer { written_of result ≡ add_answer buffer.old state (segment_with (outline_in outline) sid.now nai.now structure.now) }
    ensures octets { buffer.new ≡ add_buffer buffer.old state (segment_with (outline_in outline) sid.now nai.now structure.now) }
{
    if state.form == writer_state::MPLS_SETUP {
        return added_in::<Mpls>(buffer, state, outline, sid, nai, structure);
    }
    added_in::<Srv6>(buffer, state, outline, sid, nai, structure)
}

// Writes a segment from the present place on. The segment's octets are lent.
pub fn add(
    buffer: &mut [u8],
    writer: WriterRecord,
    outline: OutlineRecord,
    sid: &[u8; 16],
    nai: &[u8; 40],
    structure: &[u8; 4],
) -> WrittenRecord
    ensures answer { let segment = segment_with (outline_in outline) sid.now nai.now structure.now in
        result ≡ written_out (add_answer buffer.old (writer_in writer) segment) }
    ensures octets { let segment = segment_with (outline_in outline) sid.now nai.now structure.now in
        buffer.new ≡ add_buffer buffer.old (writer_in writer) segment }
{
    let w = added(buffer, writer_in(writer), outline, sid, nai, structure);
    if writer.ero > 1 {
        return written_out(w);
    }
    placed(writer, w)
}

// Writes the length.
pub fn finish(buffer: &mut [u8], writer: WriterRecord) -> WrittenRecord
    ensures answer { result ≡ written_out (finish_answer buffer.old (writer_in writer)) }
    ensures octets { buffer.new ≡ finish_buffer buffer.old (writer_in writer) }
{
    written_out(writer_begin_finish::finish(buffer, writer_in(writer)))
}
