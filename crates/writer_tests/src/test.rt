// What adding asks of a segment and of its place, test by test.
ghost use Rattle.std.specs.Prelude.{◌≡◌, not, ◌&&◌, ◌||◌, ◌+◌, ◌≤◌, ◌<◌, ltb, drop};
ghost use Rattle.forms.specs.Forms.{nai_length};
ghost use Rattle.subobject.specs.Layout.{nai_size};
ghost use Rattle.subobject.specs.Rules.{most_bits, sum_at, label_at, time_at, rule29, rule30};
ghost use Rattle.subobject.specs.Segments.{bit};
ghost use Rattle.writer_spare.specs.Spare.{zeros};
ghost use Rattle.writer_spare.specs.Lending.{lent_of};
ghost use Rattle.writer_tests.specs.Places.{passes, bad_place};

use super::place;
use forms::Layout;
use subobject::Head;
use writer_spare::Lent;

// L or V in an RRO, octets behind an NAI of n octets or of a structure that is absent not 0.
pub fn misfit<L: Layout>(x: Lent<'_>, ero: bool, n: usize) -> bool
    requires { n ≤ nai_size }
    ensures misfit { let g = lent_of x.entry in
        result ≡ ((not ero && (g.loose || g.verify)) || not ((g.structured || zeros g.structure) && zeros (drop n g.nai))) }
{
    (!ero && (x.outline.loose || x.outline.verify)) || !writer_spare::rest_tidy::<L>(x, n)
}

// The same of the NAI of the segment's own NT.
pub fn misfit_of_nt<L: Layout>(x: Lent<'_>, ero: bool) -> bool
    ensures misfit { let g = lent_of x.entry in
        result ≡ ((not ero && (g.loose || g.verify)) || not ((g.structured || zeros g.structure) && zeros (drop (nai_length L.layout g.nt) g.nai))) }
{
    (!ero && (x.outline.loose || x.outline.verify)) || !writer_spare::rest_tidy_of_nt::<L>(x)
}

// Four bit lengths, where they are there, sum above 128.
pub fn overlong(bits: &[u8], structured: bool) -> bool
    ensures overlong { result ≡ (structured && ltb most_bits (sum_at bits.now 0)) }
{
    structured && subobject_rules::sum_at(bits, 0) > subobject::MOST_BITS
}

// A label up to 15 that is not 7, where M is 1.
pub fn label_bad(h: Head, labelled: bool, sid: &[u8]) -> bool
    requires { h.m ≡ bit labelled }
    ensures bad { result ≡ rule29 h (label_at sid.now 0) }
{
    labelled && label_rules::twenty_nine(h, label_entry::label_at(sid, 0))
}

// TTL 0, where M and C are 1.
pub fn time_bad(h: Head, labelled: bool, sid: &[u8]) -> bool
    requires { h.m ≡ bit labelled }
    ensures bad { result ≡ rule30 h (time_at sid.now 0) }
{
    labelled && label_rules::thirty(h, label_entry::time_at(sid, 0))
}

// The place: 16 where it is bad, or the segment passes the end.
pub fn crowded(at: usize, room: usize, size: usize) -> bool
    requires { size < 256 }
    ensures crowded { result ≡ (bad_place at room || passes (at + size) room) }
{
    place::misplaced(at, room) || place::past(at + size, room)
}

#[cfg(test)]
mod tests {
    use super::misfit;
    use forms::{Mpls, Srv6};
    use subobject::Outline;
    use writer_spare::{Lent, rest_tidy};

    // An octet of 1 at the place 16 of an NAI and at the first bit length: it stands behind an NAI of 16 octets and not behind one of 17.
    #[test]
    fn octets_behind_an_nai_are_looked_at(rt: HostRuntime) {
        let mut nai = [0u8; 40];
        nai[16] = 1;
        for (n, structured, loose, ero, tidy, fits) in [
            (17usize, true, false, true, true, true),
            (40, true, true, true, true, true),
            (40, true, true, false, true, false),
            (16, true, false, true, false, false),
            (0, true, false, true, false, false),
            (17, false, false, true, false, false),
        ] {
            let x = Lent {
                outline: Outline {
                    loose,
                    verify: false,
                    nt: 2,
                    behaviour: 1,
                    hassid: true,
                    structured,
                    labelled: false,
                    complete: false,
                },
                sid: &[0u8; 16],
                nai: &nai,
                structure: &[1, 0, 0, 0],
            };
            assert_eq!(rt; rest_tidy::<Srv6>(x, n), tidy, "behind {n} octets");
            assert_eq!(rt; rest_tidy::<Mpls>(x, n), tidy, "behind {n} octets");
            assert_eq!(rt; misfit::<Srv6>(x, ero, n), !fits, "with {n} octets");
            assert_eq!(rt; misfit::<Mpls>(x, ero, n), !fits, "with {n} octets");
        }
    }
}
