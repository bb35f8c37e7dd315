// What adding and finishing refuse.
ghost use Rattle.std.specs.Prelude.{◌≡◌, cond, IfOk};
ghost use Rattle.answers.specs.Numbers.{nai_unknown, nothing_there};
ghost use Rattle.forms.specs.Forms.{nai_length};
ghost use Rattle.subobject.specs.Layout.{structure_size};
ghost use Rattle.subobject.specs.Rules.{rule8, rule9, flag_f};
ghost use Rattle.writer_spare.specs.Lending.{lent_of};
ghost use Rattle.writer_layout.specs.Readable.{Readable};
ghost use Rattle.writer_rules.specs.Refusals.{refused_number, add_number, finish_number};
ghost use Rattle.writer_rules.specs.Looked.{Looked};

use answers::Reason;
use forms::Layout;
use subobject::Head;
use writer_layout::Piece;
use writer_spare::Lent;

// 8 and 9, by the octets of the NAI: a segment with an NAI breaks neither.
fn nameless<L: Layout>(h: Head, n: usize) -> Result<(), Reason>
    requires { (n ≡ nai_length L.layout h.nt) × (h.f ≡ flag_f h.nt) }
    ensures number { refused_number result ≡ cond (rule8 L.layout h) nai_unknown (cond (rule9 h) nothing_there 0) }
{
    if n != 0 {
        return Ok(());
    }
    if subobject_rules::nine(h) {
        return Err(Reason::NothingThere);
    }
    if h.nt != forms::NO_NAI {
        return Err(Reason::NaiUnknown);
    }
    Ok(())
}

// The octets of a structure, if it is there.
fn ending(there: bool) -> usize
    ensures ending { result ≡ cond there structure_size 0 }
{
    if there { subobject::STRUCTURE_SIZE } else { 0 }
}

// Adding: 8, 9, 7, 11, 29, 30, then 16; else the segment with its parts. What is barred before its NAI leaves by 7, so that the compiler knows what a segment of
// the form has not.
pub fn adding<L: Layout>(
    x: Lent<'_>,
    ero: bool,
    at: usize,
    room: usize,
) -> Result<Piece<'_>, Reason>
    requires { Readable L.layout }
    ensures number { refused_number result ≡ add_number L.layout (lent_of x.entry) ero at room }
    ensures piece { IfOk result (λ p. (lent_of p.lent ≡ lent_of x.entry) × Looked L.layout (lent_of p.lent) p.head p.front p.nai p.size) }
{
    let Lent {
        outline,
        sid,
        structure,
        ..
    } = x;
    let head = subobject::head_of(L::form(), outline);
    let nai = writer_front::nai_octets::<L>(head.nt);
    nameless::<L>(head, nai)?;
    let front = writer_front::front::<L>(x).ok_or(Reason::LengthWrong)?;
    if writer_tests::misfit_of_nt::<L>(x, ero) {
        return Err(Reason::LengthWrong);
    }
    if writer_tests::overlong(structure, outline.structured) {
        return Err(Reason::StructureTooLong);
    }
    if writer_tests::label_bad(head, outline.labelled, sid) {
        return Err(Reason::LabelValue);
    }
    if writer_tests::time_bad(head, outline.labelled, sid) {
        return Err(Reason::LabelFormat);
    }
    let size = front + nai + ending(outline.structured);
    if writer_tests::crowded(at, room, size) {
        return Err(Reason::BufferFull);
    }
    Ok(Piece {
        lent: x,
        head,
        front,
        nai,
        size,
    })
}

// Finishing: 16, else 5.
pub fn finishing(at: usize, room: usize) -> Result<(), Reason>
    ensures number { refused_number result ≡ finish_number at room }
{
    if writer_tests::misplaced(at, room) {
        return Err(Reason::BufferFull);
    }
    if at == objects::HEADER {
        return Err(Reason::RouteEmpty);
    }
    Ok(())
}
