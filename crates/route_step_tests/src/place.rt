// A place of a route: whether a subobject begins there, and whether it fits.
ghost use Rattle.std.specs.Prelude.{◌≡◌, not, ◌-◌, ◌<◌, length};
ghost use Rattle.subobject.specs.Layout.{size_at};
ghost use Rattle.frame.specs.Frames.{fits_in};
ghost use Rattle.route_step_tests.specs.Places.{outside};

// No subobject begins there.
pub fn is_outside(s: &[u8], at: usize) -> bool
    ensures outside { result ≡ outside s.now at }
{
    if at < objects::HEADER {
        return true;
    }
    if at % objects::UNIT != 0 {
        return true;
    }
    s.len() <= at
}

// The subobject at a place doesn't fit.
pub fn is_unfit(s: &[u8], at: usize) -> bool
    requires { at < length s.now }
    ensures unfit { result ≡ not (fits_in (size_at s.now at) (length s.now - at)) }
{
    let room = s.len() - at;
    if room < objects::UNIT {
        return true;
    }
    let len = usize::from(s[at + subobject::SIZE_PLACE]);
    if room < len {
        return true;
    }
    if len % objects::UNIT != 0 {
        return true;
    }
    len < objects::UNIT
}
