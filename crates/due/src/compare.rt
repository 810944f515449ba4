// A field compared with what is due in it.
ghost use Rattle.std.specs.Prelude.{◌≡◌, ◌≤◌, length};
ghost use Rattle.octets.specs.Texts.{differ};
ghost use Rattle.due.specs.Due.{due_text, may_end};
ghost use Rattle.due.specs.Asked.{OriginInRange, DueField};

use crate::Basis;
use crate::due_angles::due_angle;
use crate::put::put_due;
use angles::may_carry;
use fields::{Angle, Due};
use octets::texts::differs;

// The longest text that is due: a longitude with seconds and their tenth. Kept: an array, since memory is fixed.
const WIDEST: usize = 10;

// The index of the first byte that differs from what is due; how many there are, where none does. Kept: as `differs`.
pub fn first_wrong(due: Due, basis: Basis, field: &[u8]) -> usize
    requires { DueField due basis field.now }
    ensures { (result ≡ differ field.now 0 (due_text due basis)) × (result ≤ length field.now) }
{
    let mut want = [0u8; WIDEST];
    let n = field.len();
    put_due(&mut want[0..n], due, basis);
    differs(field, 0, &want[0..n])
}

// Whether a letter may end an angle where another is due: at a corner that H42 leaves free. Kept: beside `corner_free` of `faults`, which asks
// of no letter.
fn corner_may_end(angle: Angle, basis: Basis, last: u8) -> bool
    requires { OriginInRange basis.latitude basis.longitude }
    ensures { result ≡ may_end (Due.Angle angle) basis last }
{
    let found = due_angle(angle, basis);
    let axis = found.axis;
    octets::choices::both(found.corner, may_carry(axis, found.angle, last))
}

// Whether a byte may be the last one of a field where another is due: a corner's letter may, at 0 and 180 degrees.
pub fn may_end(due: Due, basis: Basis, last: u8) -> bool
    requires { OriginInRange basis.latitude basis.longitude }
    ensures { result ≡ may_end due basis last }
{
    match due {
        Due::Angle(angle) => corner_may_end(angle, basis, last),
        Due::Text(_) | Due::Number(_) | Due::Letter | Due::Series => false,
    }
}
