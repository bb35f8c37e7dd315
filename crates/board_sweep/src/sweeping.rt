// The sweep over all places. Where there was no mark to drop, nothing has moved.
ghost use Rattle.std.specs.Prelude.{◌≡◌, false, not, ◌&&◌, eqb, leb};
ghost use Rattle.board_record.specs.Sizes.{places};
ghost use Rattle.board_sweep.specs.Sweep.{keys_kept, versions_kept};

use board_record::PLACES;

// Whether a place holds a mark with version at most c.
fn is_dropped(k: u32, v: u64, l: u16, c: u64) -> bool
    ensures dropped { result ≡ (eqb l 0 && not (eqb k 0) && leb v c) }
{
    l == 0 && k != 0 && v <= c
}

// Empties the places whose mark has version at most c, and says whether there was one.
pub fn sweep(keys: &mut [u32; 128], versions: &mut [u64; 128], lengths: &[u16; 128], c: u64) -> bool
    ensures keys { keys.new ≡ keys_kept keys.old versions.old lengths.now c places }
    ensures versions { versions.new ≡ versions_kept keys.old versions.old lengths.now c places }
    ensures stays { result ≡ false → (keys.new ≡ keys.old) × (versions.new ≡ versions.old) }
{
    let mut dropped = false;
    for i in 0..PLACES {
        if !is_dropped(keys[i], versions[i], lengths[i], c) {
            continue;
        }
        keys[i] = 0;
        versions[i] = 0;
        dropped = true;
    }
    dropped
}
