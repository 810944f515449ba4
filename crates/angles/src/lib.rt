// Whole-degree angles, counted from 90 S or from 180 W, and the degrees and letter that write them.
#![tactic(auto)]

ghost use Rattle.std.specs.Prelude.{◌≡◌, suc, ◌+◌, length};
ghost use Rattle.angles.specs.Asked.{FewDegrees};
ghost use Rattle.angles.specs.Angles.{form, angle_of, degrees_of, letter_of, is_origin, either_letter, is_side, may_carry, angle_text};

use octets::choices::{both, either};

// An axis: how many degrees lie before 0, and the letters on either side.
#[derive(Clone, Copy)]
pub struct Axis {
    pub most: usize,
    pub plus: u8,
    pub minus: u8,
}

pub const NORTHWARD: Axis = Axis {
    most: 90,
    plus: b'N',
    minus: b'S',
};

pub const EASTWARD: Axis = Axis {
    most: 180,
    plus: b'E',
    minus: b'W',
};

pub fn degrees(axis: Axis, angle: usize) -> usize
    ensures { result ≡ degrees_of axis angle }
{
    angle.abs_diff(axis.most)
}

pub fn letter(axis: Axis, angle: usize) -> u8
    ensures { result ≡ letter_of axis angle }
{
    if axis.most <= angle {
        axis.plus
    } else {
        axis.minus
    }
}

// The angle of so many degrees to the side of a letter; its start where the axis has fewer. Kept: no Option, as `angle_of`
// has it of any degrees, which headers are judged by.
pub fn angle(axis: Axis, degrees: usize, letter: u8) -> usize
    requires { FewDegrees axis degrees }
    ensures { result ≡ angle_of axis degrees letter }
{
    let most = axis.most;
    if letter == axis.plus {
        return most + degrees;
    }
    most.saturating_sub(degrees)
}

// Whether degrees and letter are those of an origin. Kept: two arguments, as definitions have them, which take both from a field.
pub fn is_origin(axis: Axis, degrees: usize, letter: u8) -> bool
    ensures { result ≡ is_origin axis degrees letter }
{
    let plus = both(letter == axis.plus, degrees < axis.most);
    let minus = both(
        letter == axis.minus,
        both(1 <= degrees, degrees <= axis.most),
    );
    either(plus, minus)
}

// Whether a corner at so many degrees may carry either letter: at 0 degrees, and at longitude 180.
pub fn either_letter(axis: Axis, degrees: usize) -> bool
    ensures { result ≡ either_letter axis degrees }
{
    either(degrees == 0, both(axis.most == 180, degrees == 180))
}

// Whether a byte is a letter of the axis.
pub fn is_side(axis: Axis, letter: u8) -> bool
    ensures { result ≡ is_side axis letter }
{
    either(letter == axis.plus, letter == axis.minus)
}

// Whether a letter may stand at the end of a corner at this angle, whatever its own is.
pub fn may_carry(axis: Axis, angle: usize, letter: u8) -> bool
    ensures { result ≡ may_carry axis angle letter }
{
    both(
        either_letter(axis, degrees(axis, angle)),
        is_side(axis, letter),
    )
}

// Degrees in so many digits, zeros for what is below a degree, and the letter, over the whole field.
#[tactic(auto, using(octets::proofs::PutLaws::put_three, octets::proofs::DigitLaws::length_digits), unfolding(crate::specs::Angles::angle_text))]
pub fn put_angle(field: &mut [u8], digits: usize, zeros: &[u8], axis: Axis, angle: usize)
    requires { length field.old ≡ suc (digits + length zeros.now) }
    ensures { field.new ≡ angle_text (form digits zeros.now) axis angle }
{
    octets::digits::put_digits(field, 0, digits, degrees(axis, angle));
    octets::pastes::paste(field, digits, zeros);
    field[digits + zeros.len()] = letter(axis, angle);
}
