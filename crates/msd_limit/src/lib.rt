// The depth limit (document 02, C-11; document 001, section 4).
//
// H.Encaps (44) with value v permits the larger of 1 and v segments, as by RFC 9352 a zero still applies one segment.
// Segments Left (41) with value m permits m + 1. The limit is the smaller of those present; none present, no limit.
// Where the first segment stays off the header, H.Encaps permits v + 1 instead (document 02, C-15).
#![tactic(auto)]

ghost use Rattle.std.specs.Prelude.{◌≡◌};
ghost use Rattle.msd_limit.specs.Limits.{h_encaps_permits, segments_left_permits, lower, limit_by, one_more_by};

// What H.Encaps with value v permits.
fn h_encaps_permits(v: Option<u8>) -> Option<usize>
    ensures permits { result ≡ h_encaps_permits v }
{
    Some(usize::from(v?).max(1))
}

// What Segments Left with value m permits: at most 256.
fn segments_left_permits(m: Option<u8>) -> Option<usize>
    ensures permits { result ≡ segments_left_permits m }
{
    Some(usize::from(m?) + 1)
}

// The smaller of two limits that are there.
fn lower(one: Option<usize>, other: Option<usize>) -> Option<usize>
    ensures lower { result ≡ lower one other }
{
    match (one, other) {
        (Some(a), Some(b)) => Some(a.min(b)),
        (None, there) => there,
        (there, None) => there,
    }
}

// The limit of H.Encaps' v and Segments Left's m.
pub fn limit(v: Option<u8>, m: Option<u8>) -> Option<usize>
    ensures limit { result ≡ limit_by v m }
{
    lower(h_encaps_permits(v), segments_left_permits(m))
}

// The limit where the first segment stays off the header: H.Encaps' v permits v + 1. A limit that H.Encaps has no part in
// stays.
pub fn one_more(limit: Option<usize>, encaps: Option<u8>, left: Option<u8>) -> Option<usize>
    ensures more { result ≡ one_more_by limit encaps left }
{
    match encaps {
        None => limit,
        Some(v) => lower(Some(usize::from(v) + 1), segments_left_permits(left)),
    }
}
