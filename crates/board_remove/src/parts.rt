// A record whose parts are lent, those that a removal changes as `&mut`.
ghost use Rattle.std.specs.Prelude.{◌≡◌};
ghost use Rattle.board_record.specs.Lent.{board_lent};
ghost use Rattle.board_remove.specs.Parts.{board_in};

use board_record::Lent;

#[derive(Drop)]
pub struct Parts<'a> {
    pub keys: &'a [u32; 128],
    pub versions: &'a mut [u64; 128],
    pub lengths: &'a mut [u16; 128],
    pub version: &'a mut u64,
    pub floor: u64,
    pub order: &'a mut [u8; 128],
    pub tops: &'a mut [u64; 16],
    pub forms: &'a mut [u8; 128],
}

impl Parts<'_> {
    pub fn lent(&self) -> Lent<'_>
        ensures lent { board_lent result ≡ board_in self.now }
    {
        Lent {
            keys: self.keys,
            versions: self.versions,
            lengths: self.lengths,
            version: *self.version,
            floor: self.floor,
            order: self.order,
            tops: self.tops,
            forms: self.forms,
        }
    }
}
