// What holds of each place by itself, whatever the order says: its length fits its form, and its key is not too large. Only places
// below m, which those in use do not reach beyond, are looked at. Neither loop has a way out, so that the compiler can take many at a time.
#![tactic(auto)]

ghost use Rattle.std.specs.Prelude.{◌≡◌, ◌≤◌, get_or, leb};
ghost use Rattle.board_record.specs.Sizes.{places, key_most};
ghost use Rattle.board_record.specs.Proper.{all_below};
ghost use Rattle.board_extent.specs.Extent.{EmptyFrom};
ghost use Rattle.board_fits.specs.Fits.{body_b};

use board_fits::fits;
use board_record::Lent;

const KEY_MOST: u32 = board_record::KEY_MOST as u32;

// Whether all lengths fit their forms; from place m on both are 0.
pub fn bodies(b: Lent<'_>, m: usize) -> bool
    requires { (m ≤ places) × EmptyFrom b.lengths.now m × EmptyFrom b.forms.now m }
    ensures bodies { let now = b.entry in result ≡ all_below (λ i. body_b (get_or now.lengths.now i 0) (get_or now.forms.now i 0)) places }
{
    let mut all = true;
    for i in 0..m {
        all &= fits(b.lengths[i], b.forms[i]);
    }
    all
}

// Whether no key is too large; from place m on there is none.
pub fn low(b: Lent<'_>, m: usize) -> bool
    requires { (m ≤ places) × EmptyFrom b.keys.now m }
    ensures low { result ≡ all_below (λ i. leb (get_or b.entry.keys.now i 0) key_most) places }
{
    let mut all = true;
    for i in 0..m {
        all &= b.keys[i] <= KEY_MOST;
    }
    all
}
