// The rule year that a host names in a call: it decides where a cell may hold voids.
#![tactic(auto)]

ghost use Rattle.std.specs.Prelude.{◌≡◌};
ghost use Rattle.years.specs.Years.{named_of};

use answers::Refusal;

#[derive(Clone, Copy)]
pub enum Year {
    One,
    Two,
}

// The year that a number names, or 17; any number.
impl TryFrom<u32> for Year {
    type Error = Refusal;

    ghost try_from_gives = { λ named result. result ≡ named_of named };

    fn try_from(named: u32) -> Result<Year, Refusal> {
        if named == 1 {
            return Ok(Year::One);
        }
        if named == 2 {
            return Ok(Year::Two);
        }
        Err(Refusal::Year(named as usize))
    }
}
