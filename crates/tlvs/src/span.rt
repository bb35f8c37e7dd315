// Where a value lies in the octets, as a walk keeps it.
ghost use Rattle.std.specs.Prelude.{◌≡◌, ◌+◌, ◌≤◌, length};
ghost use Rattle.octets.specs.Octets.{part};

// The start and the length of a value.
#[derive(Clone, Copy)]
pub struct Span {
    pub from: usize,
    pub len: usize,
}

impl Span {
    // The value that lies here in the octets.
    pub fn of(self, s: &[u8]) -> &[u8]
        requires { self.from + self.len ≤ length s.now }
        ensures value { result.now ≡ part s.now self.from self.len }
    {
        &s[self.from..self.from + self.len]
    }
}
