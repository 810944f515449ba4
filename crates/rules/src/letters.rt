// Single letters: of security, and of a version.
ghost use Rattle.std.specs.Prelude.{◌≡◌};
ghost use Rattle.rules.specs.Rules.{is_letter, is_version};

// Whether a byte is a security letter.
pub fn is_letter(b: u8) -> bool
    ensures { result ≡ is_letter b }
{
    matches!(b, b'S' | b'C' | b'U' | b'R')
}

// Whether a byte is a version.
pub fn is_version(b: u8) -> bool
    ensures { result ≡ is_version b }
{
    b.is_ascii_uppercase()
}
