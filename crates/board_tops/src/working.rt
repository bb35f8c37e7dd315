// The row of a list of versions, group by group: what a compaction drops can lower the largest version of a group.
ghost use Rattle.std.specs.Prelude.{◌≡◌, true, false, ◌<◌};
ghost use Rattle.board_record.specs.Sizes.{groups};
ghost use Rattle.board_record.specs.Tops.{top_of, tops_of, in_tops};

use board_record::{GROUP, GROUPS};

// The largest version of group g.
fn top_of(versions: &[u64; 128], g: usize) -> u64
    requires { g < groups }
    ensures top { result ≡ top_of versions.now g }
{
    let mut top: u64 = 0;
    for j in 0..GROUP {
        top = top.max(versions[GROUP * g + j]);
    }
    top
}

// The row of the versions; it is that already unless `dropped` says otherwise.
pub fn work_out(versions: &[u64; 128], tops: &mut [u64; 16], dropped: bool)
    requires { dropped ≡ false → in_tops versions.now tops.old ≡ true }
    ensures tops { tops.new ≡ tops_of versions.now }
{
    if !dropped {
        return;
    }
    for g in 0..GROUPS {
        tops[g] = top_of(versions, g);
    }
}
