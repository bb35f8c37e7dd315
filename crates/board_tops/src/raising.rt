// The row once a place holds a version above all others: that is the largest of its group.
ghost use Rattle.std.specs.Prelude.{◌≡◌, true, ℕ, ◌<◌, get_or, set};
ghost use Rattle.board_record.specs.Sizes.{places};
ghost use Rattle.board_record.specs.Tops.{tops_of, in_tops};

use board_record::GROUP;

pub fn raise(versions: &[u64; 128], tops: &mut [u64; 16], at: usize, v: u64)
    requires { (in_tops versions.now tops.old ≡ true) × (at < places) × ((p : ℕ) → p < places → get_or versions.now p 0 < v) }
    ensures raised { tops.new ≡ tops_of (set versions.now at v) }
{
    tops[at / GROUP] = v;
}
