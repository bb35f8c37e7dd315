// The walk over the TLVs of an OPEN object. A sub-TLV is laid out as a TLV is: the same walk goes over
// the sub-TLVs inside the first TLV 34, one level deep. It answers where the values found lie.
//
// Of several TLVs 34, or wanted sub-TLVs, the first is used and the others are only walked.
// Nothing: a TLV does not fit, or the first TLV 34 does not hold its padded list and whole sub-TLVs.
#![tactic(auto)]

ghost use Rattle.std.specs.Prelude.{◌≡◌, ◌-◌, ◌≤◌, ◌<◌, length};
ghost use Rattle.octets.specs.Octets.{end16, part};
ghost use Rattle.open_walk.specs.Walk.{sight_of, open_walk, Bounds};

use setup_types::PATH_SETUP;
use tlvs::{Item, Span};

// What a walk found: the value of the first TLV 34, and that of the first wanted sub-TLV in it.
#[derive(Clone, Copy)]
pub struct Values {
    pub list: Option<Span>,
    pub sub: Option<Span>,
}

// The TLVs from `start` to `end`, or with `inner` the sub-TLVs there.
pub fn walk(s: &[u8], inner: bool, want: usize, start: usize, end: usize) -> Option<Values>
    requires { (start ≤ end) × (end ≤ length s.now) × (end < end16) }
    ensures found { sight_of s.now result ≡ open_walk (part s.now start (end - start)) inner want }
    ensures within { Bounds s.now result }
{
    let mut at = start;
    let mut list = None;
    let mut sub = None;
    // No `for`: each item says by its own length where the next one begins.
    while at < end {
        let Some(Item { kind, value, next }) = tlvs::item_at(s, inner, at, end) else {
            return None;
        };
        // By `match`, with no `?` and no `is_none()`: with these the compiler no longer puts the walk inside into this one, which misses a bar of speed.
        if inner {
            if kind == want {
                match sub {
                    None => sub = Some(value),
                    Some(_) => {}
                }
            }
        } else if kind == PATH_SETUP {
            match list {
                None => {
                    let size = setup_types::list_size(value.of(s));
                    if value.len < size {
                        return None;
                    }
                    let Some(inside) = walk(
                        s,
                        true,
                        want,
                        value.from + size,
                        value.from + value.len,
                    ) else {
                        return None;
                    };
                    list = Some(value);
                    sub = inside.sub;
                }
                Some(_) => {}
            }
        }
        at = next;
    }
    Some(Values { list, sub })
}
