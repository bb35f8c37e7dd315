// A record whose parts are lent, those that a compaction changes as `&mut`.
ghost use Rattle.std.specs.Prelude.{◌≡◌};
ghost use Rattle.board_record.specs.Lent.{board_lent};
ghost use Rattle.board_compact.specs.Parts.{board_in};

use board_record::Lent;

#[derive(Drop)]
pub struct Parts<'a> {
    pub keys: &'a mut [u32; 128],
    pub versions: &'a mut [u64; 128],
    pub lengths: &'a [u16; 128],
    pub version: u64,
    pub floor: &'a mut u64,
    pub order: &'a mut [u8; 128],
    pub tops: &'a mut [u64; 16],
    pub forms: &'a [u8; 128],
}

impl Parts<'_> {
    pub fn lent(&self) -> Lent<'_>
        ensures lent { board_lent result ≡ board_in self.now }
    {
        Lent {
            keys: self.keys,
            versions: self.versions,
            lengths: self.lengths,
            version: self.version,
            floor: *self.floor,
            order: self.order,
            tops: self.tops,
            forms: self.forms,
        }
    }
}
