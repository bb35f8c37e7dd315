// A segment to be written: what it names beside its octets, and its octets, lent. To hand them on by value takes longer than to write them.
ghost use Rattle.subobject.specs.Segments.{segment_with};
ghost use Rattle.writer_spare.specs.Typed.{Typed};

use subobject::Outline;

#[derive(Clone, Copy)]
pub struct Lent<'a> {
    pub outline: Outline,
    pub sid: &'a [u8; 16],
    pub nai: &'a [u8; 40],
    pub structure: &'a [u8; 4],
    ghost typed: { Typed (segment_with outline sid.now nai.now structure.now) },
}
