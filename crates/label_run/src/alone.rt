// The labels that a route begins with.
ghost use Rattle.std.specs.Prelude.{◌≡◌, true, false, not, ◌&&◌, ◌+◌, ◌*◌, ◌≤◌, ◌<◌, eqb, ltb, length};
ghost use Rattle.octets.specs.Octets.{end16};
ghost use Rattle.objects.specs.Objects.{header};
ghost use Rattle.forms.specs.Forms.{entry_size};
ghost use Rattle.subobject.specs.Rules.{label_at, first_free, good_label};
ghost use Rattle.label_run.specs.Alone.{label_size, LabelAlone, AloneTo};

// The octets of a label alone, and its first four as a number: type 36, 8 octets, NT 0 (octet 2 is 0), F and M (octet 3 is 9).
pub const LABEL_SIZE: usize = forms::MPLS_FIXED + forms::ENTRY_SIZE;

const ALONE: usize = 604504073;

// what the lowest bit of the first two octets is worth in that number
const UPPER_HALF: usize = 65536;

// where an MPLS subobject has its label stack entry, and the TTL in it
pub const ENTRY_PLACE: usize = forms::MPLS_FIXED;

pub const TTL_PLACE: usize = ENTRY_PLACE + label_entry::TIME_PLACE;

// Of the labels below 16 only 7 may stand in a route: the label of the label stack entry at a place is above them if one of its first 16 bits is set.
pub fn label_good(s: &[u8], at: usize) -> bool
    requires { at + entry_size ≤ length s.now }
    ensures good { result ≡ true → (ltb (label_at s.now at) first_free && not (eqb (label_at s.now at) good_label)) ≡ false }
{
    if octets::read16(s, at) != 0 {
        return true;
    }
    usize::from(s[at + 2]) / label_entry::THIRD_PART == label_rules::GOOD_LABEL
}

// Whether a label that may stand in a route stands alone at a place.
fn is_alone(s: &[u8], at: usize) -> bool
    requires { at + label_size ≤ length s.now }
    ensures alone { result ≡ true → LabelAlone s.now at }
{
    if octets::read16(s, at) * UPPER_HALF + octets::read16(s, at + subobject::FLAGS_PLACE)
        != ALONE
    {
        return false;
    }
    label_good(s, at + ENTRY_PLACE)
}

// How many labels alone a route begins with, behind its header.
pub fn labels(s: &[u8]) -> usize
    requires { (header ≤ length s.now) × (length s.now < end16) }
    ensures labels { AloneTo s.now result }
{
    let most = (s.len() - objects::HEADER) / LABEL_SIZE;
    for count in 0..most {
        if !is_alone(s, objects::HEADER + LABEL_SIZE * count) {
            return count;
        }
    }
    most
}
