// Heights as a caller gives them: metres, and one number for void.
ghost use Rattle.std.specs.Prelude.{◌≡◌};
ghost use Rattle.posts.specs.Heights.{height_allowed, word_of};

// Void, as heights are given and answered.
// Kept: a number and no Option, since heights come from C and go there as numbers (DTED_VOID of include/dted.h).
pub const VOID: i64 = -32767;

// Whether a cell may hold this height: `voids` says whether it may hold voids.
pub fn is_allowed(height: i64, voids: bool) -> bool
    ensures { result ≡ height_allowed voids height }
{
    if height == VOID {
        return voids;
    }
    (-12000..=9000).contains(&height)
}

// The word of a height: its sign, and the low fifteen bits of its magnitude.
pub fn word_of(height: i64) -> u16
    ensures { result ≡ word_of height }
{
    let magnitude = (height.unsigned_abs() % 0x8000) as u16;
    if height < 0 {
        0x8000 + magnitude
    } else {
        magnitude
    }
}

// The same for a height of 16 bits: in a loop over many of them a compiler makes no wider number on the way.
pub fn word_of_short(metres: i16) -> u16
    ensures { result ≡ word_of metres }
{
    word_of(i64::from(metres))
}
