// One pass over the frame: how many subobjects, whether one is of the type asked for, and the first whose type isn't the first one's.
ghost use Rattle.std.specs.Prelude.{◌≡◌, ◌≤◌, ◌<◌, ◌%◌, length};
ghost use Rattle.octets.specs.Octets.{end16};
ghost use Rattle.objects.specs.Objects.{header, unit};
ghost use Rattle.frame.specs.Frames.{fits_in, kind_at};
ghost use Rattle.frame.specs.Gathered.{Placed, PlacedIn, gathered, found_of, facts_of, seen_of};

// What a whole frame holds: so many subobjects, one of the type asked for or none, and the place of the first of another type than the first one's.
#[derive(Clone, Copy)]
pub struct Facts {
    pub count: usize,
    pub any: bool,
    pub other: Option<usize>,
}

// A subobject's part of 4.
#[tactic(auto, unfolding(crate::specs::Frames::fits_in))]
fn fits(len: usize, room: usize) -> bool
    ensures fits { result ≡ fits_in len room }
{
    objects::UNIT <= len && len % objects::UNIT == 0 && len <= room
}

// A subobject of the type k at `at` more. Mostly it is of the type of the first.
fn seen(g: Facts, k: usize, kind: usize, first: usize, at: usize) -> Facts
    requires { (g.count < end16) × (0 < at) × Placed g.other }
    ensures seen { gathered result ≡ seen_of (gathered g) k kind first at }
    ensures placed { Placed result.other }
{
    if k == first {
        return Facts {
            count: g.count + 1,
            ..g
        };
    }
    Facts {
        count: g.count + 1,
        other: g.other.or(Some(at)),
        any: g.any || k == kind,
    }
}

// What the subobjects are, if the frame is whole; `first` is the type of the first.
pub fn look(s: &[u8], ero: bool, kind: usize, first: usize) -> Option<Facts>
    requires { (header ≤ length s.now) × (length s.now % unit ≡ 0) × (length s.now < end16) × (first ≡ kind_at s.now ero header) }
    ensures facts { found_of result ≡ facts_of s.now ero kind }
    ensures placed { PlacedIn result }
{
    let end = s.len();
    let mut at: usize = objects::HEADER;
    let any = end != objects::HEADER && first == kind;
    let mut g = Facts {
        count: 0,
        any,
        other: None,
    };
    // No `for`: each subobject says its own length, and the next one begins behind it.
    while at != end {
        let len = usize::from(s[at + subobject::SIZE_PLACE]);
        if !fits(len, end - at) {
            return None;
        }
        g = seen(g, subobject::kind(usize::from(s[at]), ero), kind, first, at);
        at = at + len;
    }
    Some(g)
}
