// What next hands out.
ghost use Rattle.std.specs.Prelude.{◌≡◌};
ghost use Rattle.board_rules.specs.Handed.{handed_of};
ghost use Rattle.border_answers.specs.AnswersOut.{change_out};

use answers::Refusal;
use board_rules::Handed;

// Its kind, then what comes with it; the form is a path's.
#[repr(C)]
#[derive(Clone, Copy)]
pub struct ChangeRecord {
    pub number: usize,
    pub kind: usize,
    pub key: u64,
    pub version: u64,
    pub place: usize,
    pub length: usize,
    pub form: usize,
}

// kinds of what next hands out
const REFUSED_KIND: usize = 0;

const PATH_KIND: usize = 1;

const REMOVED_KIND: usize = 2;

const LEVEL_KIND: usize = 3;

pub fn change_out(handed: Result<Handed, Refusal>) -> ChangeRecord
    ensures change { result ≡ change_out (handed_of handed) }
{
    match handed {
        Err(refusal) => ChangeRecord {
            number: refusal.reason.number(),
            kind: REFUSED_KIND,
            key: 0,
            version: 0,
            place: 0,
            length: 0,
            form: 0,
        },
        Ok(Handed::Path(c, o)) => ChangeRecord {
            number: 0,
            kind: PATH_KIND,
            key: c.key,
            version: c.version,
            place: o.place,
            length: o.length,
            form: o.form,
        },
        Ok(Handed::Removed(c)) => ChangeRecord {
            number: 0,
            kind: REMOVED_KIND,
            key: c.key,
            version: c.version,
            place: 0,
            length: 0,
            form: 0,
        },
        Ok(Handed::Level(version)) => ChangeRecord {
            number: 0,
            kind: LEVEL_KIND,
            key: 0,
            version,
            place: 0,
            length: 0,
            form: 0,
        },
    }
}
