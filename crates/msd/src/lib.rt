// Pairs of MSD type and MSD value, one octet each (document 01, "The OPEN object").
//
// X is 0 and a pair's type isn't 41, 42, 44 or 45: 3.
// Of a repeated type the smallest value is used. H.Encaps (44) and Segments Left (41) bind the head end, End Pop (42) and
// End D (45) don't (document 02, C-11; document 001, section 4).
#![tactic(auto)]

ghost use Rattle.std.specs.Prelude.{◌≡◌, is_none, IfSome};
ghost use Rattle.msd.specs.Msd.{smaller, pairs_in, wrong_pairs, gathered_of};
ghost use Rattle.msd.specs.Stands.{Stands, met};

const MAX_SEGMENTS_LEFT: u8 = 41;

const MAX_END_POP: u8 = 42;

const MAX_H_ENCAPS: u8 = 44;

const MAX_END_D: u8 = 45;

// The smallest values of H.Encaps and of Segments Left, each where a pair has the type.
#[derive(Clone, Copy)]
pub struct Depths {
    pub encaps: Option<u8>,
    pub left: Option<u8>,
}

// In the pass, of a type that no pair has: above every octet.
const NONE_YET: usize = 256;

// A value, or the least so far where that is smaller.
fn smaller(value: u8, least: usize) -> usize
    ensures smaller { met result ≡ smaller value (met least) }
{
    usize::from(value).min(least)
}

// What the pass met of a type.
#[tactic(auto, unfolding(crate::specs::Stands::met))]
fn met(least: usize) -> Option<u8>
    ensures met { result ≡ met least }
{
    if least < NONE_YET {
        Some(least as u8)
    } else {
        None
    }
}

// What the pairs come to; nothing where the type of one is none of the four, and the pass ends at the first such.
pub fn gather(p: &[u8]) -> Option<Depths>
    ensures gathered { result ≡ gathered_of (pairs_in p.now) }
    ensures wrong { is_none result ≡ wrong_pairs (pairs_in p.now) }
    ensures stands { IfSome result (λ depths. Stands (pairs_in p.now) depths.encaps depths.left) }
{
    // Numbers, and no `Option` before the end: the compiler packs one into a flag and an octet that each turn takes apart, which misses a bar of speed.
    let mut encaps = NONE_YET;
    let mut left = NONE_YET;
    let mut pairs = p;
    // No `for`: the pattern takes a pair off by name, where `chunks_exact(2)` hands out slices whose octets are then looked up again.
    while let [kind, value, rest @ ..] = pairs {
        match *kind {
            MAX_H_ENCAPS => encaps = smaller(*value, encaps),
            MAX_SEGMENTS_LEFT => left = smaller(*value, left),
            MAX_END_POP => {}
            MAX_END_D => {}
            _ => return None,
        }
        pairs = rest;
    }
    Some(Depths {
        encaps: met(encaps),
        left: met(left),
    })
}
