// What is due, put over a field: a text, a number in digits, an angle.
ghost use Rattle.std.specs.Prelude.{◌≡◌, ◌++◌, ◌≤◌, length};
ghost use Rattle.octets.specs.Digits.{digits_of};
ghost use Rattle.octets.specs.Texts.{ascii};
ghost use Rattle.angles.specs.Angles.{angle_text};
ghost use Rattle.due.specs.Due.{text_of, form_of, due_angle_text, due_text};
ghost use Rattle.due.specs.Asked.{AngleField, DueField};

use crate::Basis;
use crate::due_angles::{DueAngle, due_angle};
use crate::numbers::number;
use crate::texts::{MMSS, MMSS_S};
use angles::put_angle;
use fields::{Due, Text};
use octets::pastes::paste;

// A text over the whole field.
#[tactic(auto, using(octets::proofs::PasteLaws::paste_all))]
pub fn put(field: &mut [u8], text: &[u8])
    requires { length field.old ≡ length text.now }
    ensures { field.new ≡ text.now }
{
    field.copy_from_slice(text);
}

#[tactic(auto, using(octets::proofs::PasteLaws::paste_all, octets::proofs::DigitLaws::length_digits))]
pub fn put_number(field: &mut [u8], n: usize, v: usize)
    requires { length field.old ≡ n }
    ensures { field.new ≡ digits_of n v }
{
    octets::digits::put_digits(field, 0, n, v);
}

// Kept: a call to each text, and not one with the text as a value, by which a header's judging takes 3 % more instructions.
fn put_text(field: &mut [u8], text: Text)
    requires { length field.old ≡ length (text_of text) }
    ensures { field.new ≡ text_of text }
{
    match text {
        Text::Uhl1 => put(field, &crate::texts::UHL1),
        Text::Zero => put(field, &crate::texts::ZERO),
        Text::Dsi => put(field, &crate::texts::DSI),
        Text::Prf89020b => put(field, &crate::texts::PRF89020B),
        Text::Wgs84 => put(field, &crate::texts::WGS84),
        Text::Orientation => put(field, &crate::texts::ORIENTATION),
        Text::Acc => put(field, &crate::texts::ACC),
        Text::ZeroZero => put(field, &crate::texts::ZERO_ZERO),
    }
}

// Kept: a call to each text of zeros, and not one with `due.zeros()`, by which a header's judging takes 4 % more instructions.
fn put_due_angle(field: &mut [u8], due: DueAngle)
    requires { AngleField due field.old }
    ensures { field.new ≡ due_angle_text due }
{
    if due.corner {
        put_angle(field, due.digits, &MMSS, due.axis, due.angle);
    } else {
        put_angle(field, due.digits, &MMSS_S, due.axis, due.angle);
    }
}

#[tactic(auto, using(octets::proofs::PutLaws::put_two, octets::proofs::DigitLaws::length_digits))]
fn put_series(field: &mut [u8], level: usize)
    requires { length field.old ≡ 5 }
    ensures { field.new ≡ ascii "DTED" ++ digits_of 1 level }
{
    paste(field, 0, &crate::texts::DTED);
    octets::digits::put_digits(field, 4, 1, level);
}

// What is due in a field, over the whole of it.
#[tactic(auto, unfolding(crate::specs::Due::due_text))]
pub fn put_due(field: &mut [u8], due: Due, basis: Basis)
    requires { DueField due basis field.old }
    ensures { field.new ≡ due_text due basis }
{
    let grid = basis.grid;
    match due {
        Due::Text(text) => put_text(field, text),
        Due::Number(n) => put_number(field, 4, number(n, grid)),
        Due::Angle(angle) => put_due_angle(field, due_angle(angle, basis)),
        Due::Letter => put(field, &[basis.letter]),
        Due::Series => put_series(field, grid.level),
    }
}
