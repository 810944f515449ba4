// The sum of bytes, as a column's checksum has it.
ghost use Rattle.std.specs.Prelude.{◌≡◌, ◌+◌, ◌≤◌, length};
ghost use Rattle.octets.specs.Sums.{sum_of, lows_of};

// The sum of the bytes of `part`, few enough that 32 bits hold it.
pub fn sum(part: &[u8]) -> u32
    requires { length part.now ≤ 65536 }
    ensures { result ≡ sum_of part.now }
{
    part.iter().map(|b| u32::from(*b)).sum()
}

// The sum of the bytes of words, from 16 bits of the words' sum and the sum of their high bytes; right where 16 bits hold that of the low ones.
pub fn bytes_of(words: u16, highs: u16) -> u32
    ensures { result ≡ highs + lows_of words highs }
{
    let lows = words.wrapping_sub(highs % 256 * 256);
    u32::from(highs) + u32::from(lows)
}
