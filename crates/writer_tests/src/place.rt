// Where an object may stand in the lent buffer: it passes neither the buffer's end nor 65,532 octets,
// and the present place is a multiple of 4 that is not under 4.
ghost use Rattle.std.specs.Prelude.{◌≡◌};
ghost use Rattle.writer_tests.specs.Places.{passes, bad_place};

// the most octets of an object
pub const MOST_OCTETS: usize = 65532;

// Whether an object of `end` octets passes the end.
#[tactic(auto, unfolding(crate::specs::Places::passes))]
pub fn past(end: usize, room: usize) -> bool
    ensures past { result ≡ passes end room }
{
    room < end || MOST_OCTETS < end
}

// Whether a place is bad.
#[tactic(auto, unfolding(crate::specs::Places::bad_place))]
pub fn misplaced(at: usize, room: usize) -> bool
    ensures misplaced { result ≡ bad_place at room }
{
    at < objects::HEADER || at % objects::UNIT != 0 || past(at, room)
}
