// The subobject reader's answer, for its caller to take apart.
ghost use Rattle.std.specs.Prelude.{◌≡◌, ◌≤◌, length};
ghost use Rattle.forms.specs.Sized.{Sized};
ghost use Rattle.subobject_read.specs.Reader.{reading_of, read_of};

use answers::{Reason, Refusal};
use forms::Form;
use subobject_strays::Strays;

// What is set in the subobject at `at` that ought to be 0; 7 where the octets end before it does.
// The segment's octets are read by `segment_at`, once the answer is that they are there.
pub fn read_at(form: Form, s: &[u8], ero: bool, at: usize) -> Result<Strays, Refusal>
    requires { (at ≤ length s.now) × Sized form }
    ensures answer { reading_of result ≡ read_of form s.now ero at }
{
    let cut = Refusal {
        reason: Reason::LengthWrong,
        place: at,
    };
    let room = s.len() - at;
    if room < usize::from(form.fixed) {
        return Err(cut);
    }
    let h = subobject::head_at(form, s, ero, at);
    if room < subobject::expected(form, h.nt, h.s, h.t) {
        return Err(cut);
    }
    Ok(subobject_strays::strays_at(form, h, s, at))
}
