// Whether a field keeps its rule, by its kind.
ghost use Rattle.std.specs.Prelude.{◌≡◌};
ghost use Rattle.rules.specs.Rules.{due_holds, holds};
ghost use Rattle.rules.specs.Asked.{DueInRange, FieldOfKind};

use crate::items::item_holds;
use due::Basis;
use due::compare::{first_wrong, may_end};
use fields::{Due, Kind};

// Whether what is due stands in a field, or stands but for a letter that may be the other one.
#[tactic(auto, using(crate::proofs::DueHolds::all_stand, crate::proofs::DueHolds::last_differs, crate::proofs::DueHolds::early_differs))]
fn due_holds(due: Due, basis: Basis, field: &[u8]) -> bool
    requires { DueInRange due basis field.now }
    ensures { result ≡ due_holds due basis field.now }
{
    let n = field.len();
    let at = first_wrong(due, basis, field);
    if at == n {
        return true;
    }
    if at + 1 == n {
        return may_end(due, basis, field[at]);
    }
    false
}

// Whether a field of this kind keeps its rule.
// Kept: what a basis is within is asked, as in `due::due_angles::due_angle`, since `headers:Basis.basis_in` makes one of any bytes.
pub fn keeps(kind: Kind, basis: Basis, field: &[u8]) -> bool
    requires { FieldOfKind kind basis field.now }
    ensures { result ≡ holds kind basis field.now }
{
    match kind {
        Kind::Item(item) => item_holds(item, field),
        Kind::Due(due) => due_holds(due, basis, field),
    }
}
