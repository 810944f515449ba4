// Angles that the origin makes due: which one stands in a field, and how it is written there.
ghost use Rattle.std.specs.Prelude.{◌≡◌};
ghost use Rattle.due.specs.Due.{again, corner, due_angle, form_of};
ghost use Rattle.due.specs.Asked.{OriginInRange};

use crate::Basis;
use crate::texts::{MMSS, MMSS_S};
use angles::{Axis, EASTWARD, NORTHWARD};
use fields::Angle;

// An angle, the digits of its degrees, and whether it is a corner's, whose seconds have no tenth.
#[derive(Clone, Copy)]
pub struct DueAngle {
    pub axis: Axis,
    pub angle: usize,
    pub digits: usize,
    pub corner: bool,
}

impl DueAngle {
    // The zeros between its degrees and its letter.
    pub fn zeros(self) -> &'static [u8]
        ensures { result.now ≡ (form_of self).zeros }
    {
        if self.corner { &MMSS } else { &MMSS_S }
    }
}

// The origin, once more.
// Kept: `again` and `corner` are the definition's two words (specs/Due.antt), and a flag at each call would say less.
fn again(axis: Axis, digits: usize, angle: usize) -> DueAngle
    ensures { result ≡ again axis digits angle }
{
    DueAngle {
        axis,
        angle,
        digits,
        corner: false,
    }
}

// An edge of the cell, at a corner.
fn corner(axis: Axis, digits: usize, angle: usize) -> DueAngle
    ensures { result ≡ corner axis digits angle }
{
    DueAngle {
        axis,
        angle,
        digits,
        corner: true,
    }
}

// The angle that is due in a field.
// Kept: the range is asked, and no invariant of `Basis`: `headers:Basis.basis_in` makes one of any bytes.
pub fn due_angle(angle: Angle, basis: Basis) -> DueAngle
    requires { OriginInRange basis.latitude basis.longitude }
    ensures { result ≡ due_angle angle basis }
{
    match angle {
        Angle::OriginLatitude => again(NORTHWARD, 2, basis.latitude),
        Angle::OriginLongitude => again(EASTWARD, 3, basis.longitude),
        Angle::South => corner(NORTHWARD, 2, basis.latitude),
        Angle::North => corner(NORTHWARD, 2, basis.latitude + 1),
        Angle::West => corner(EASTWARD, 3, basis.longitude),
        Angle::East => corner(EASTWARD, 3, basis.longitude + 1),
    }
}
