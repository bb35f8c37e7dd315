// `chain` of the console (console.md): the used places from the oldest change to the newest, out of the board's order.
#![tactic(auto)]

ghost use Rattle.std.specs.Prelude.{◌≤◌, ◌≡◌, length, take};
ghost use Rattle.board_record.specs.Sizes.{places};
ghost use Rattle.console_chain.specs.Chain.{chain_of};

// The places that the numbers of an order name go to the front of `laid`; how many they are.
pub fn along(order: &[u8], laid: &mut [u8]) -> usize
    requires { (length order.now ≡ places) × (length laid.old ≡ places) }
    ensures named { take result laid.new ≡ chain_of order.now }
    ensures within { result ≤ places }
{
    for i in 0..board_record::PLACES {
        let n = order[i];
        if n == 0 {
            return i;
        }
        laid[i] = n - 1;
    }
    board_record::PLACES
}
