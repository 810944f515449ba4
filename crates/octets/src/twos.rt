// Words of 16 bits as two's complement numbers, with the same bits.
ghost use Rattle.std.specs.Prelude.{◌≡◌};
ghost use Rattle.octets.specs.Twos.{twos_of};

pub fn number_of(word: u16) -> i16
    ensures { result ≡ twos_of word }
{
    word.cast_signed()
}
