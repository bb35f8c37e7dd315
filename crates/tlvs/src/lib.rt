// TLVs one behind the other (document 01, "The OPEN object").
//
// A TLV is type (2), length (2), value, then padding to a multiple of 4 that the length doesn't count.
// A sub-TLV is laid out as a TLV is; only the padding of the last sub-TLV may be missing or cut.
// What is too short for that is no TLV.
#![tactic(auto)]

mod span;

ghost use Rattle.std.specs.Prelude.{◌≡◌, ◌≤◌, ◌<◌, length};
ghost use Rattle.octets.specs.Octets.{end16};
ghost use Rattle.tlvs.specs.Places.{item_at, Within};

pub use span::Span;

// The octets of type and length, and the place of the length.
pub const TLV_HEAD: usize = 4;

const TLV_LENGTH_PLACE: usize = 2;

// One TLV: its type, where its value lies, and where the next one starts.
#[derive(Clone, Copy)]
pub struct Item {
    pub kind: usize,
    pub value: Span,
    pub next: usize,
}

// The TLV at `at` of those that end at `end`, if there is one. With `short` its padding may be missing or cut at the end.
pub fn item_at(s: &[u8], short: bool, at: usize, end: usize) -> Option<Item>
    requires { (at ≤ end) × (end ≤ length s.now) × (end < end16) }
    ensures exact { result ≡ item_at s.now short at end }
    ensures within { Within result at end }
{
    let room = end - at;
    if room < TLV_HEAD {
        return None;
    }
    let kind = octets::read16(s, at);
    let len = octets::read16(s, at + TLV_LENGTH_PLACE);
    let padded = octets::padded(len);
    let needed = if short { len } else { padded };
    if room < TLV_HEAD + needed {
        return None;
    }
    let from = at + TLV_HEAD;
    Some(Item {
        kind,
        value: Span { from, len },
        next: from + padded,
    })
}
