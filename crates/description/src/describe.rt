// The thirteen items of a description, read from good headers.
ghost use Rattle.std.specs.Prelude.{◌≡◌, ◌+◌, ◌≤◌, length};
ghost use Rattle.layout.specs.Grid.{header_bytes};
ghost use Rattle.description.specs.Described.{accuracy_at, datum_at, items_in, described};

use crate::{Accuracies, Accuracy, Datum, Description};
use angles::{EASTWARD, NORTHWARD};
use answers::Refusal;
use headers::judge::judge;
use headers::readings::{level_at, origin};
use octets::digits::{are_digits, decimal};
use octets::texts::stands;

#[tactic(auto, unfolding(crate::specs::Described::accuracy_at))]
fn accuracy_at(s: &[u8], at: usize) -> Accuracy
    requires { at + 4 ≤ length s.now }
    ensures { result ≡ accuracy_at s.now at }
{
    if are_digits(s, at, 4) {
        Accuracy::Metres(decimal(s, at, 4) as u16)
    } else {
        Accuracy::Unknown
    }
}

#[tactic(auto, unfolding(crate::specs::Described::datum_at))]
fn datum_at(s: &[u8], at: usize) -> Datum
    requires { at + 3 ≤ length s.now }
    ensures { result ≡ datum_at s.now at }
{
    if stands(s, at, &due::texts::MSL) {
        Datum::Msl
    } else {
        Datum::E96
    }
}

#[tactic(auto, unfolding(crate::specs::Described::items_in))]
fn items_in(s: &[u8]) -> Description
    requires { header_bytes ≤ length s.now }
    ensures { result ≡ items_in s.now }
{
    Description {
        level: level_at(s),
        latitude: origin(NORTHWARD, s, fields::places::LATITUDE),
        longitude: origin(EASTWARD, s, fields::places::LONGITUDE),
        security: s[fields::places::SECURITY],
        edition: decimal(s, fields::places::EDITION, 2),
        version: s[fields::places::VERSION],
        datum: datum_at(s, fields::places::DATUM),
        uhl: accuracy_at(s, fields::places::UHL_ACCURACY),
        absolute: Accuracies {
            horizontal: accuracy_at(s, fields::places::ABSOLUTE_HORIZONTAL),
            vertical: accuracy_at(s, fields::places::ABSOLUTE_VERTICAL),
        },
        relative: Accuracies {
            horizontal: accuracy_at(s, fields::places::RELATIVE_HORIZONTAL),
            vertical: accuracy_at(s, fields::places::RELATIVE_VERTICAL),
        },
        partial: decimal(s, fields::places::PARTIAL, 2),
    }
}

// The description of good headers, or the refusal of any bytes that do not begin with such.
pub fn describe(s: &[u8]) -> Result<Description, Refusal>
    ensures { result ≡ described s.now }
{
    judge(s)?;
    Ok(items_in(s))
}
