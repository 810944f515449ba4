// What stands in the headers, read as numbers.
ghost use Rattle.std.specs.Prelude.{◌≡◌, ◌≤◌, length};
ghost use Rattle.layout.specs.Grid.{header_bytes};
ghost use Rattle.angles.specs.Angles.{degrees_in, letter_in, angle_of};
ghost use Rattle.rules.specs.Rules.{origin_form};
ghost use Rattle.headers.specs.Basis.{origin_at, level_at};
ghost use Rattle.headers.specs.Asked.{OriginField, OriginThere};

use angles::Axis;
use octets::digits::decimal;
use octets::texts::stands;

// The angle of an origin, from the bytes of its field.
fn origin_in(axis: Axis, field: &[u8]) -> usize
    requires { OriginField axis field.now }
    ensures { result ≡ angle_of axis (degrees_in origin_form field.now) (letter_in origin_form field.now) }
{
    angles::angle(axis, decimal(field, 0, 3), field[7])
}

// The angle of an origin in its field of the UHL.
// Kept: a slice that is long enough, and no array of the headers' length: `headers:Judged.judged` is of all bytes that there are.
#[tactic(auto, unfolding(crate::specs::Basis::origin_at))]
pub fn origin(axis: Axis, s: &[u8], at: usize) -> usize
    requires { OriginThere axis s.now at }
    ensures { result ≡ origin_at axis s.now at }
{
    origin_in(axis, &s[at..at + 8])
}

// The level whose latitude interval stands in the UHL.
#[tactic(auto, unfolding(crate::specs::Basis::level_at))]
pub fn level_at(s: &[u8]) -> usize
    requires { header_bytes ≤ length s.now }
    ensures { result ≡ level_at s.now }
{
    if stands(s, fields::places::LEVEL, &due::texts::LEVEL0) {
        return 0;
    }
    if stands(s, fields::places::LEVEL, &due::texts::LEVEL1) {
        return 1;
    }
    2
}
