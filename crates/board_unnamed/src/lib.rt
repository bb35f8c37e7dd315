// What the order does not name: places that must be empty, and numbers that must be 0, as many of each.
#![tactic(auto)]

ghost use Rattle.std.specs.Prelude.{◌≡◌, ℕ, Bool, ◌-◌, ◌<◌, ◌≤◌, ◌&&◌, get_or, eqb};
ghost use Rattle.board_record.specs.Sizes.{places};
ghost use Rattle.board_record.specs.Lists.{count_below};
ghost use Rattle.board_extent.specs.Extent.{EmptyFrom, Reach};
ghost use Rattle.board_unnamed.specs.Rest.{empty_b};

use board_record::{Lent, PLACES};

// How many of the first m places pass. The count is an octet, and the loop has no way out, so that the compiler takes many places at a time.
fn count<F: Fn(usize) -> bool>(m: usize, passes: F) -> usize
    requires { (m ≤ places) × ((i : ℕ) → i < m → F.pre passes i) }
    ensures count { (t : ℕ → Bool) → ((i : ℕ) (r : Bool) → i < m → F.post passes i r → r ≡ t i) → result ≡ count_below t m }
    ensures most { result ≤ m }
{
    let mut n: u8 = 0;
    for i in 0..m {
        n += u8::from(passes(i));
    }
    usize::from(n)
}

// How many places have no key, no length and no form. All from place m on are such.
fn empties(b: Lent<'_>, m: usize) -> usize
    requires { (m ≤ places) × EmptyFrom b.keys.now m × EmptyFrom b.lengths.now m × EmptyFrom b.forms.now m }
    ensures count { let now = b.entry in result ≡ count_below (empty_b now.keys.now now.lengths.now now.forms.now) places }
{
    count(
        m,
        |i| (b.keys[i] == 0) & (b.lengths[i] == 0) & (b.forms[i] == 0),
    ) + (PLACES - m)
}

// How many versions are 0. All from place m on are. They are counted by themselves: beside the narrow numbers the compiler would take two places at a time. The
// count is as wide as a version: in `count`'s octet the compiler packs each two versions.
fn unborn(b: Lent<'_>, m: usize) -> usize
    requires { (m ≤ places) × EmptyFrom b.versions.now m }
    ensures count { result ≡ count_below (λ j. eqb (get_or b.entry.versions.now j 0) 0) places }
{
    let mut n: usize = 0;
    for i in 0..m {
        n += usize::from(b.versions[i] == 0);
    }
    n + (PLACES - m)
}

// How many numbers of the order are 0.
fn zeros(b: Lent<'_>) -> usize
    ensures count { result ≡ count_below (λ j. eqb (get_or b.entry.order.now j 0) 0) places }
{
    count(PLACES, |i| b.order[i] == 0)
}

// The places in use reach no further than m. Whether all places but i are empty, and all versions and all numbers but i are 0.
pub fn closed(b: Lent<'_>, m: usize, i: usize) -> bool
    requires { (i ≤ places) × Reach b.keys.now b.versions.now b.lengths.now b.forms.now m }
    ensures closed { let now = b.entry in
        let empty = count_below (empty_b now.keys.now now.lengths.now now.forms.now) places in
        let unborn = count_below (λ j. eqb (get_or now.versions.now j 0) 0) places in
        let zero = count_below (λ j. eqb (get_or now.order.now j 0) 0) places in
        result ≡ (eqb empty (places - i) && eqb unborn (places - i) && eqb zero (places - i)) }
{
    empties(b, m) == PLACES - i && unborn(b, m) == PLACES - i && zeros(b) == PLACES - i
}
