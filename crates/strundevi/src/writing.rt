// Writing a route: begun, given one segment at a time, and finished. The writer's small state goes in and comes back.
ghost use Rattle.std.specs.Prelude.{◌≡◌};
ghost use Rattle.subobject.specs.Segments.{segment_with};
ghost use Rattle.writer_begin_finish.specs.Ends.{begin_answer, begin_buffer, finish_answer, finish_buffer};
ghost use Rattle.writer.specs.Writing.{add_answer, add_buffer};
ghost use Rattle.border_records.specs.Records.{is_yes};
ghost use Rattle.border_segment.specs.Segments.{outline_in};
ghost use Rattle.border_answers.specs.AnswersOut.{writer_in, written_out};

use border_answers::{WriterRecord, WrittenRecord};
use border_segment::OutlineRecord;

// Writes the header with length 4. The setup type names the form, SRv6's if it names none, and the state keeps it.
#[unsafe(no_mangle)]
pub extern "C" fn strundevi_raw_begin(
    buffer: &mut [u8],
    writer: WriterRecord,
    ero: u8,
    pst: u64,
) -> WrittenRecord
    ensures answer { result ≡ written_out (begin_answer buffer.old (writer_in writer) (is_yes ero) pst) }
    ensures octets { buffer.new ≡ begin_buffer buffer.old (writer_in writer) (is_yes ero) }
{
    border_writing::begin(buffer, writer, ero, pst)
}

// Writes a segment from the present place on. The segment's octets are lent.
#[unsafe(no_mangle)]
pub extern "C" fn strundevi_raw_add(
    buffer: &mut [u8],
    writer: WriterRecord,
    outline: OutlineRecord,
    sid: &[u8; 16],
    nai: &[u8; 40],
    structure: &[u8; 4],
) -> WrittenRecord
    ensures answer { let segment = segment_with (outline_in outline) sid.now nai.now structure.now in
        result ≡ written_out (add_answer buffer.old (writer_in writer) segment) }
    ensures octets { let segment = segment_with (outline_in outline) sid.now nai.now structure.now in
        buffer.new ≡ add_buffer buffer.old (writer_in writer) segment }
{
    border_writing::add(buffer, writer, outline, sid, nai, structure)
}

// Writes the length.
#[unsafe(no_mangle)]
pub extern "C" fn strundevi_raw_finish(buffer: &mut [u8], writer: WriterRecord) -> WrittenRecord
    ensures answer { result ≡ written_out (finish_answer buffer.old (writer_in writer)) }
    ensures octets { buffer.new ≡ finish_buffer buffer.old (writer_in writer) }
{
    border_writing::finish(buffer, writer)
}
