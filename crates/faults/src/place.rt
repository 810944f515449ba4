// Which byte of a broken field is named.
ghost use Rattle.std.specs.Prelude.{◌≡◌, ◌≤◌, length};
ghost use Rattle.due.specs.Asked.{OriginInRange, DueField};
ghost use Rattle.rules.specs.Asked.{FieldOfKind};
ghost use Rattle.faults.specs.Place.{corner_free, letter_free, due_wrong_at, wrong_at};

use angles::{degrees, either_letter};
use due::Basis;
use due::compare::first_wrong;
use due::due_angles::due_angle;
use fields::{Angle, Due, Kind};

// Whether the angle that is due is a corner's, with either letter.
fn corner_free(angle: Angle, basis: Basis) -> bool
    requires { OriginInRange basis.latitude basis.longitude }
    ensures { result ≡ corner_free angle basis }
{
    let found = due_angle(angle, basis);
    let axis = found.axis;
    octets::choices::both(
        found.corner,
        either_letter(axis, degrees(axis, found.angle)),
    )
}

// Whether more than one string keeps the rule of a field in which something is due.
fn letter_free(due: Due, basis: Basis) -> bool
    requires { OriginInRange basis.latitude basis.longitude }
    ensures { result ≡ letter_free due basis }
{
    match due {
        Due::Angle(angle) => corner_free(angle, basis),
        Due::Text(_) | Due::Number(_) | Due::Letter | Due::Series => false,
    }
}

fn due_wrong_at(due: Due, basis: Basis, field: &[u8]) -> usize
    requires { DueField due basis field.now }
    ensures { (result ≡ due_wrong_at due basis field.now) × (result ≤ length field.now) }
{
    if letter_free(due, basis) {
        return 0;
    }
    first_wrong(due, basis, field)
}

// The index of the byte that is named.
pub fn wrong_at(kind: Kind, basis: Basis, field: &[u8]) -> usize
    requires { FieldOfKind kind basis field.now }
    ensures { (result ≡ wrong_at kind basis field.now) × (result ≤ length field.now) }
{
    match kind {
        Kind::Item(_) => 0,
        Kind::Due(due) => due_wrong_at(due, basis, field),
    }
}
