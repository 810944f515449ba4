// What a field that breaks its rule is refused as: which of 21, 22 and 23, and where.
#![tactic(auto)]

ghost use Rattle.std.specs.Prelude.{◌≡◌, length};
ghost use Rattle.octets.specs.Choice.{pick};
ghost use Rattle.due.specs.Due.{due_width};
ghost use Rattle.faults.specs.Fault.{due_fault, fault};
ghost use Rattle.faults.specs.Asked.{BrokenField};

use answers::Refusal;
use due::Basis;
use fields::{Due, Kind};
use rules::letters::is_letter;

pub mod ever;
pub mod place;

// A refusal of bytes that may stand in the field of another header, or else 21.
fn possible_or(possible: bool, otherwise: Refusal, place: usize) -> Refusal
    ensures { result ≡ pick possible otherwise (Refusal.FieldImpossible place) }
{
    if possible {
        otherwise
    } else {
        Refusal::FieldImpossible(place)
    }
}

// The refusal of a field in which something else is due.
fn due_fault(due: Due, place: usize, field: &[u8]) -> Refusal
    requires { length field.now ≡ due_width due }
    ensures { result ≡ due_fault due place field.now }
{
    match due {
        Due::Text(_) => Refusal::FieldImpossible(place),
        Due::Number(number) => possible_or(
            ever::is_number(number, field),
            Refusal::FieldOffTable(place),
            place,
        ),
        Due::Angle(angle) => possible_or(
            ever::is_angle(angle, field),
            Refusal::FieldContradicts(place),
            place,
        ),
        Due::Letter => possible_or(is_letter(field[0]), Refusal::FieldContradicts(place), place),
        Due::Series => possible_or(
            ever::is_series(field),
            Refusal::FieldContradicts(place),
            place,
        ),
    }
}

// The refusal of a field at this offset that breaks its rule.
#[tactic(auto, unfolding(crate::specs::Fault::fault))]
pub fn broken(kind: Kind, basis: Basis, at: usize, field: &[u8]) -> Refusal
    requires { BrokenField kind basis at field.now }
    ensures { result ≡ fault kind basis at field.now }
{
    let place = at + place::wrong_at(kind, basis, field);
    match kind {
        Kind::Item(_) => Refusal::FieldImpossible(place),
        Kind::Due(due) => due_fault(due, place, field),
    }
}
