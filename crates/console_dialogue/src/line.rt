// What is kept of a line.
ghost use Rattle.std.specs.Prelude.{◌≤◌, ◌≡◌, ◌++◌, length, take};

use console_state::fit;

// More of the line, as much as there is room for.
pub fn keep(line: &mut [u8], kept: usize, part: &[u8]) -> usize
    requires { kept ≤ length line.old }
    ensures kept { take result line.new ≡ take (length line.old) (take kept line.old ++ part.now) }
    ensures within { result ≤ length line.old }
{
    let n = fit(part, line.len() - kept);
    octets::lay(line, kept, &part[..n]);
    kept + n
}
