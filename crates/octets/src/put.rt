// Octets into a lent buffer. Those behind the octets written stay.
ghost use Rattle.std.specs.Prelude.{◌≡◌, ◌+◌, ◌≤◌, length};
ghost use Rattle.octets.specs.Octets.{over, placed};

// `src` over the start of `out`.
pub fn copy(out: &mut [u8], src: &[u8])
    requires { length src.now ≤ length out.old }
    ensures copied { out.new ≡ over src.now out.old }
{
    // One by one, and not by the library's method: that asks for `memmove`, and the archive asks for no name but `memcpy` and `memset`.
    for i in 0..src.len() {
        out[i] = src[i];
    }
}

// `src` from the place `at` on.
pub fn lay(out: &mut [u8], at: usize, src: &[u8])
    requires { at + length src.now ≤ length out.old }
    ensures laid { out.new ≡ placed out.old at src.now }
{
    copy(&mut out[at..], src);
}
