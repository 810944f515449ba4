// Bytes put over bytes of a lent slice.
ghost use Rattle.std.specs.Prelude.{◌≡◌, ◌+◌, ◌≤◌, length, replicate};
ghost use Rattle.octets.specs.Pastes.{pasted};

// `src` over what stands at `at`; every other byte stays.
pub fn paste(dst: &mut [u8], at: usize, src: &[u8])
    requires { at + length src.now ≤ length dst.old }
    ensures { dst.new ≡ pasted dst.old at src.now }
{
    dst[at..at + src.len()].copy_from_slice(src);
}

// n bytes of one value over what stands at `at`; every other byte stays.
pub fn fill(dst: &mut [u8], at: usize, n: usize, b: u8)
    requires { at + n ≤ length dst.old }
    ensures { dst.new ≡ pasted dst.old at (replicate n b) }
{
    dst[at..at + n].fill(b);
}
