// The place of a subobject, counted from the object's start.
ghost use Rattle.std.specs.Prelude.{◌≡◌, get_or};
ghost use Rattle.frame.specs.Frames.{apart_of};
ghost use Rattle.frame.specs.Gathered.{Walkable};

// no octet of a subobject: the object begins with its header. A refusal that names no place has it too, so that callers hand it on, where an Option would be unwrapped
const NO_PLACE: usize = 0;

// The place of subobject i, from 0; 0 where there is none.
pub fn nth(s: &[u8], i: usize) -> usize
    requires { Walkable s.now }
    ensures place { result ≡ get_or (apart_of s.now).places i 0 }
{
    let end = s.len();
    let mut at: usize = objects::HEADER;
    for k in 0..i {
        if at == end {
            return NO_PLACE;
        }
        at = at + usize::from(s[at + subobject::SIZE_PLACE]);
    }
    if at == end { NO_PLACE } else { at }
}
