// What may stand in a field of one accepted header or another: tests of the field's bytes alone.
ghost use Rattle.std.specs.Prelude.{◌≡◌, ◌<◌, length};
ghost use Rattle.angles.specs.Angles.{is_angle};
ghost use Rattle.due.specs.Due.{angle_width, form_of};
ghost use Rattle.due.specs.Asked.{AngleField};
ghost use Rattle.faults.specs.Ever.{in_zones, in_table, is_some_number, is_some_edge, is_some_name, is_some_angle, is_some_series};
ghost use Rattle.faults.specs.Asked.{EdgeNamed};

use angles::{Axis, angle, either_letter, is_origin, is_side};
use due::NOTHING;
use due::due_angles::{DueAngle, due_angle};
use due::numbers::number;
use due::texts::DTED;
use fields::{Angle, Number};
use octets::choices::{both, either};
use octets::digits::{are_digits, decimal};
use octets::texts::stands;

// Whether a zone of this level has this number. Kept: a loop: with `any` over the zones the check finds no proof, as it does here.
#[tactic(auto, using(layout::proofs::NearEdges::last_below, octets::proofs::TestLaws::some_found), unfolding(crate::specs::Ever::in_zones))]
fn in_zones(name: Number, level: usize, v: usize) -> bool
    requires { level < 3 }
    ensures { result ≡ in_zones name level v }
{
    for zone in 0..5 {
        let grid = layout::grid_of(level, layout::zones::last_edge(zone));
        if number(name, grid) == v {
            return true;
        }
    }
    false
}

// Whether the level and zone table has this number.
#[tactic(auto, unfolding(crate::specs::Ever::in_table))]
fn in_table(name: Number, v: usize) -> bool
    ensures { result ≡ in_table name v }
{
    either(
        in_zones(name, 0, v),
        either(in_zones(name, 1, v), in_zones(name, 2, v)),
    )
}

// Four digits, and a number of the table.
pub fn is_number(name: Number, field: &[u8]) -> bool
    requires { length field.now ≡ 4 }
    ensures { result ≡ is_some_number name field.now }
{
    both(
        are_digits(field, 0, 4),
        in_table(name, decimal(field, 0, 4)),
    )
}

// Whether degrees and letter name an edge of some cell, from the first one on.
fn is_edge(axis: Axis, first: usize, degrees: usize, letter: u8) -> bool
    requires { EdgeNamed axis first degrees }
    ensures { result ≡ is_some_edge axis first degrees letter }
{
    let most = axis.most;
    let found = angle(axis, degrees, letter);
    let there = both(first <= found, found < first + most + most);
    both(
        both(degrees <= most, is_side(axis, letter)),
        either(either_letter(axis, degrees), there),
    )
}

// Whether degrees and letter name an origin or an edge of some cell, by what is due at the first origin.
fn is_name(due: DueAngle, degrees: usize, letter: u8) -> bool
    requires { EdgeNamed due.axis due.angle degrees }
    ensures { result ≡ is_some_name due degrees letter }
{
    let axis = due.axis;
    if due.corner {
        return is_edge(axis, due.angle, degrees, letter);
    }
    is_origin(axis, degrees, letter)
}

// Whether nothing but zeros stands between degrees and letter.
fn is_form(due: DueAngle, field: &[u8]) -> bool
    requires { AngleField due field.now }
    ensures { result ≡ is_angle (form_of due) field.now }
{
    both(
        are_digits(field, 0, due.digits),
        stands(field, due.digits, due.zeros()),
    )
}

// An origin of some cell, or an edge.
#[tactic(auto, unfolding(crate::specs::Ever::is_some_angle))]
pub fn is_angle(name: Angle, field: &[u8]) -> bool
    requires { length field.now ≡ angle_width name }
    ensures { result ≡ is_some_angle name field.now }
{
    let due = due_angle(name, NOTHING);
    let degrees = decimal(field, 0, due.digits);
    let letter = field[field.len() - 1];
    both(is_form(due, field), is_name(due, degrees, letter))
}

// "DTED", and the digit of a level.
pub fn is_series(field: &[u8]) -> bool
    requires { length field.now ≡ 5 }
    ensures { result ≡ is_some_series field.now }
{
    let digit = field[4];
    both(stands(field, 0, &DTED), (b'0'..=b'2').contains(&digit))
}
