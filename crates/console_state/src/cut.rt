// A number that is cut to what there is.
ghost use Rattle.std.specs.Prelude.{min, ◌≡◌, length};
ghost use Rattle.io.specs.Counts.{IsPrefixLen};
ghost use Rattle.console_state.specs.State.{list_in};

use command_forms::MOST_SIZE;

// A number of octets at the start of `s`, at most `n`.
pub fn fit(s: &[u8], n: usize) -> usize
    ensures counts { IsPrefixLen result s.now }
    ensures cut { result ≡ min n (length s.now) }
{
    n.min(s.len())
}

// The list of addresses, which lies behind the writer's part of the memory.
pub fn listed(memory: &[u8], given: usize) -> &[u8]
    ensures listed { result.now ≡ list_in memory.now given }
{
    if memory.len() < MOST_SIZE {
        return &[];
    }
    let behind = &memory[MOST_SIZE..];
    &behind[..fit(behind, given)]
}
