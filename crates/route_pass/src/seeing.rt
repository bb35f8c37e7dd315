// The pass over the subobjects of one form, which the compiler knows the numbers of: the labels alone that a route of MPLS begins with, then one by one what is behind them.
ghost use Rattle.std.specs.Prelude.{◌≡◌, true, ◌<◌, length};
ghost use Rattle.octets.specs.Octets.{end16};
ghost use Rattle.frame.specs.Frames.{headed};
ghost use Rattle.route_pass.specs.Settled.{SettledBy};

use super::of_layout::Passed;

// What the pass hands back: the number of segments, and this many times the number of those that are stray; 0 where it has settled nothing. One number stays
// out of memory, and leaves the loop its registers.
pub const STRAY_WORTH: usize = octets::END16;

pub fn see<L: Passed>(s: &[u8], ero: bool, n: bool) -> usize
    requires { (headed s.now ero ≡ true) × (length s.now < end16) }
    ensures settled { SettledBy L.layout s.now ero n result }
{
    let form = L::form();
    let kind = usize::from(form.kind);
    let end = s.len();
    let mut count = L::labels(s);
    let mut at: usize = objects::HEADER + label_run::LABEL_SIZE * count;
    let mut stray: usize = 0;
    // No `for`: each subobject says its own length, and the next one begins behind it.
    while at != end {
        let h = subobject::head_at(form, s, ero, at);
        if h.kind != kind {
            return 0;
        }
        if !L::is_sound(h, s, ero, n, at) {
            return 0;
        }
        if end - at < h.size {
            return 0;
        }
        if !subobject_sound::structure_sound(form, h, s, at) {
            return 0;
        }
        if !L::label_sound(h, s, at) {
            return 0;
        }
        stray += L::stray_of(h, s, at);
        count += 1;
        at += h.size;
    }
    count + STRAY_WORTH * stray
}
