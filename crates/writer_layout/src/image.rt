// One subobject at the start of what is lent: the octets before the SID, then SID, NAI and SID structure
// where they are there. The octets behind it stay.
ghost use Rattle.std.specs.Prelude.{◌≡◌, false, ◌≤◌, length};
ghost use Rattle.octets.specs.Octets.{over};
ghost use Rattle.forms.specs.Sized.{Sized};
ghost use Rattle.subobject.specs.Rules.{rule8, has_structure};
ghost use Rattle.subobject.specs.Segments.{head_of_outline, structure_octets, subobject_of};
ghost use Rattle.writer_spare.specs.Lending.{lent_of};
ghost use Rattle.writer_layout.specs.Readable.{Readable};
ghost use Rattle.writer_layout.specs.Parts.{Parts};

use forms::Layout;
use subobject::Head;
use writer_spare::Lent;

// A lent segment with its head, the octets before its NAI, those of its NAI, and all.
#[derive(Clone, Copy)]
pub struct Piece<'a> {
    pub lent: Lent<'a>,
    pub head: Head,
    pub front: usize,
    pub nai: usize,
    pub size: usize,
}

// Four bit lengths, 3 reserved octets and 1 of flags.
fn structure(bits: &[u8; 4]) -> [u8; 8]
    ensures structure { result ≡ structure_octets bits.now }
{
    [bits[0], bits[1], bits[2], bits[3], 0, 0, 0, 0]
}

// One subobject at the start of `out`.
pub fn write<L: Layout>(out: &mut [u8], p: Piece<'_>)
    requires { let h = p.head in let g = lent_of p.lent in
        (h ≡ head_of_outline L.layout p.lent.outline) × (rule8 L.layout h ≡ false) × (length (subobject_of L.layout g) ≤ length out.old)
        × (Sized L.layout) × (Readable L.layout) × (Parts L.layout h p.front p.nai p.size) × (g.structured ≡ has_structure h) }
    ensures written { out.new ≡ over (subobject_of L.layout (lent_of p.entry.lent)) out.old }
{
    let last = structure(p.lent.structure);
    writer_fixed::fixed::<L>(out, p.head, p.size, p.lent.outline.behaviour);
    writer_parts::lay_sid::<L>(out, p.lent.sid, p.head.s == 0);
    writer_parts::lay_nai::<L>(out, p.front, p.lent.nai, p.head.nt);
    writer_parts::lay_structure(out, p.front + p.nai, last, p.lent.outline.structured);
}
