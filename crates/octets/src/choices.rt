// Tests joined without a branch, so that a rule of many tests is one expression.
ghost use Rattle.std.specs.Prelude.{◌≡◌};
ghost use Rattle.octets.specs.Choice as choice;

pub fn both(a: bool, b: bool) -> bool
    ensures { result ≡ choice.both a b }
{
    a && b
}

pub fn either(a: bool, b: bool) -> bool
    ensures { result ≡ choice.either a b }
{
    a || b
}
