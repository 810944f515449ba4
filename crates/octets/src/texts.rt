// Fixed texts: where a part first differs from one, and whether it has it.
ghost use Rattle.std.specs.Prelude.{◌≡◌, ◌+◌, ◌≤◌, length};
ghost use Rattle.octets.specs.Texts.{differ, has};

// The index of the first byte of `want` that does not stand at `at`; its length where all do. Kept: no
// Option, as `differ` has it: of a text that stands, what comes next is its end; and a loop, since of `position` the check finds no proof by itself.
pub fn differs(s: &[u8], at: usize, want: &[u8]) -> usize
    requires { at + length want.now ≤ length s.now }
    ensures { (result ≡ differ s.now at want.now) × (result ≤ length want.now) }
{
    for (i, b) in want.iter().enumerate() {
        if s[at + i] != *b {
            return i;
        }
    }
    want.len()
}

// Whether `want` stands at `at`.
pub fn stands(s: &[u8], at: usize, want: &[u8]) -> bool
    requires { at + length want.now ≤ length s.now }
    ensures { result ≡ has s.now at want.now }
{
    differs(s, at, want) == want.len()
}
