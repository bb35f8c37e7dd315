// A bucket of a hash links the numbers of the order whose keys have that hash, the last one first. `heads[h]` is 1 more than the
// last number whose key has the hash h, `nexts[x]` 1 more than the number before x in x's bucket, and 0 ends it, so a walk goes down.
ghost use Rattle.std.specs.Prelude.{◌≡◌, ℕ, ◌+◌, ◌<◌, ◌≤◌, true, not, ◌&&◌, ◌==◌, slice_index};
ghost use Rattle.board_record.specs.Sizes.{places};
ghost use Rattle.board_record.specs.Proper.{fresh_b};
ghost use Rattle.board_record.specs.Order.{place_on};
ghost use Rattle.board_order_numbers.specs.Buckets.{along, slots, slot_of, Heads, Links, Walking};

use board_order::place_of;
use board_record::Lent;

// the low 32 bits of a number, what they are multiplied by, and the worth of the lowest of the ten bits of the product that are the hash
const LOW: u64 = 4294967296;

const MIX: u64 = 2654435761;

const LOWEST_WORTH: u64 = 4194304;

// hashes are below it
pub const SLOTS: usize = 1024;

const HASHES: u64 = SLOTS as u64;

// The hash of a number: the ten bits of the product that are worth most in its low 32 bits.
fn slot(k: u64) -> usize
    ensures slot { (result ≡ slot_of k) × (result < slots) }
{
    (k % LOW * MIX / LOWEST_WORTH % HASHES) as usize
}

// None of the first i keys along the order is k; start is the head of k's bucket.
fn fresh(b: Lent<'_>, nexts: &[u8; 128], i: usize, k: u32, start: u8) -> bool
    requires { let xs = along b.keys.now b.order.now in
        (i ≤ places) × ((j : ℕ) → j < i → place_on b.order.now j < places) × Links xs nexts.now i × Walking xs i k start }
    ensures fresh { result ≡ fresh_b (along b.entry.keys.now b.entry.order.now) i k }
{
    // Where the walk goes next stands in the link that it came to, so no range and no list gives its steps.
    let mut p = usize::from(start);
    while p != 0 {
        let x = p - 1;
        if let Some(at) = place_of(b.order[x]) {
            if b.keys[at] == k {
                return false;
            }
        }
        p = usize::from(nexts[x]);
    }
    true
}

// Whether k, the key of number i, is a key and none of those before it; it then joins its bucket.
pub fn bucketed(
    b: Lent<'_>,
    heads: &mut [u8; 1024],
    nexts: &mut [u8; 128],
    i: usize,
    k: u32,
) -> bool
    requires { let xs = along b.keys.now b.order.now in
        (i < places) × (k ≡ slice_index xs i) × ((j : ℕ) → j < i → place_on b.order.now j < places) × Heads xs heads.old i × Links xs nexts.old i }
    ensures new { let xs = along b.entry.keys.now b.entry.order.now in result ≡ (not (k == 0) && fresh_b xs i k) }
    ensures joins { let xs = along b.entry.keys.now b.entry.order.now in
        (result ≡ true → Heads xs heads.new (i + 1) × Links xs nexts.new (i + 1)) }
{
    if k == 0 {
        return false;
    }
    let h = slot(u64::from(k));
    let p = heads[h];
    if !fresh(b, nexts, i, k, p) {
        return false;
    }
    nexts[i] = p;
    heads[h] = (i + 1) as u8;
    true
}
