// A record whose parts are lent one by one, as they come over the C interface and as calls that change some of them have them: what is
// only read of it goes together.
ghost use Rattle.std.specs.Prelude.{◌≡◌};
ghost use Rattle.board_record.specs.Lent.{board_lent};

use super::record::Board;

#[derive(Clone, Copy)]
pub struct Lent<'a> {
    pub keys: &'a [u32; 128],
    pub versions: &'a [u64; 128],
    pub lengths: &'a [u16; 128],
    pub version: u64,
    pub floor: u64,
    pub order: &'a [u8; 128],
    pub tops: &'a [u64; 16],
    pub forms: &'a [u8; 128],
}

impl Board {
    // The record, all of it lent.
    pub fn lent(&self) -> Lent<'_>
        ensures lent { board_lent result ≡ self.now }
    {
        Lent {
            keys: &self.keys,
            versions: &self.versions,
            lengths: &self.lengths,
            version: self.version,
            floor: self.floor,
            order: &self.order,
            tops: &self.tops,
            forms: &self.forms,
        }
    }
}
