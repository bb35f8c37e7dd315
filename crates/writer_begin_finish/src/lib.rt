// A route object is begun, and finished (document 01, "Writing a route"). An object starts with its class, its type in the high 4 bits of the next octet,
// and a length of 2 octets that counts the 4 octets of the header. Begin takes the setup type, which names the form, and refuses by 16, finish by 16 and 5; the
// place in these answers is 0.
#![tactic(auto)]

ghost use Rattle.std.specs.Prelude.{◌≡◌};
ghost use Rattle.forms.specs.Forms.{form_of};
ghost use Rattle.frame.specs.Frames.{class_of};
ghost use Rattle.writer_state.specs.Written.{written_of};
ghost use Rattle.writer_begin_finish.specs.Ends.{begin_answer, begin_buffer, finish_answer, finish_buffer};

use answers::Reason;
use writer_state::{MPLS_SETUP, SRV6_SETUP, Writer, Written};

// Type 1 in the high 4 bits; the low bits are 0.
const TYPE_OCTET: u8 = (objects::OBJECT_TYPE * objects::TYPE_WORTH) as u8;

// The two octets of an object's length.
const LENGTH_HIGH: usize = objects::LENGTH_PLACE;

const LENGTH_LOW: usize = objects::LENGTH_PLACE + 1;

// The number that the state keeps for a setup type.
fn kept_form(pst: u64) -> u8
    ensures form { result ≡ (form_of pst).setup }
{
    if pst == objects::MPLS_SETUP {
        return MPLS_SETUP;
    }
    SRV6_SETUP
}

fn class(ero: bool) -> u8
    ensures class { result ≡ class_of ero }
{
    if ero {
        objects::ERO_CLASS as u8
    } else {
        objects::RRO_CLASS as u8
    }
}

// Writes the header with length 4; the setup type names the form.
pub fn begin(buf: &mut [u8], writer: Writer, ero: bool, pst: u64) -> Written
    ensures answer { written_of result ≡ begin_answer buf.old writer ero pst }
    ensures buffer { buf.new ≡ begin_buffer buf.old writer ero }
{
    if buf.len() < objects::HEADER {
        return writer_state::refuse(Reason::BufferFull, writer);
    }
    buf[objects::CLASS_PLACE] = class(ero);
    buf[objects::TYPE_PLACE] = TYPE_OCTET;
    buf[LENGTH_HIGH] = 0;
    buf[LENGTH_LOW] = objects::HEADER as u8;
    writer_state::accept(Writer {
        ero,
        at: objects::HEADER,
        form: kept_form(pst),
    })
}

// Writes the length; the object is the first octets of the buffer, up to the place.
pub fn finish(buf: &mut [u8], writer: Writer) -> Written
    ensures answer { written_of result ≡ finish_answer buf.old writer }
    ensures buffer { buf.new ≡ finish_buffer buf.old writer }
{
    match writer_rules::finishing(writer.at, buf.len()) {
        Err(reason) => writer_state::refuse(reason, writer),
        Ok(()) => {
            buf[LENGTH_HIGH] = (writer.at / 256 % 256) as u8;
            buf[LENGTH_LOW] = (writer.at % 256) as u8;
            writer_state::accept(writer)
        }
    }
}
