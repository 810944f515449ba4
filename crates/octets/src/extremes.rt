// The larger and the smaller of two numbers. Kept: two functions, since each is one call of the library, as a generic one would be too.
ghost use Rattle.std.specs.Prelude.{◌≡◌};
ghost use Rattle.octets.specs.Extremes.{larger_of, smaller_of};

pub fn larger(a: i16, b: i16) -> i16
    ensures { result ≡ larger_of a b }
{
    a.max(b)
}

pub fn smaller(a: i16, b: i16) -> i16
    ensures { result ≡ smaller_of a b }
{
    a.min(b)
}
