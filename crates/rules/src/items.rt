// What the field of an item must hold: one test to an item, of the field's bytes alone.
ghost use Rattle.std.specs.Prelude.{◌≡◌, length};
ghost use Rattle.rules.specs.Rules.{is_level, is_origin_field, is_security, is_edition, is_datum, is_accuracy, item_width, item_holds};

use crate::letters::{is_letter, is_version};
use angles::{Axis, EASTWARD, NORTHWARD, is_origin};
use fields::Item;
use octets::choices::{both, either};
use octets::digits::{are_digits, decimal};
use octets::texts::stands;

// The latitude interval of one of the three levels. Kept: here and below the width is asked, and no array taken, since a field is cut by its row.
// Kept: three tests, since a loop over the three texts would be no shorter.
fn is_level(field: &[u8]) -> bool
    requires { length field.now ≡ 4 }
    ensures { result ≡ is_level field.now }
{
    either(
        stands(field, 0, &due::texts::LEVEL0),
        either(
            stands(field, 0, &due::texts::LEVEL1),
            stands(field, 0, &due::texts::LEVEL2),
        ),
    )
}

// Degrees in three digits, no minutes and seconds, and a letter, as an origin may have them.
fn is_origin_field(axis: Axis, field: &[u8]) -> bool
    requires { length field.now ≡ 8 }
    ensures { result ≡ is_origin_field axis field.now }
{
    both(
        both(are_digits(field, 0, 3), stands(field, 3, &due::texts::MMSS)),
        is_origin(axis, decimal(field, 0, 3), field[7]),
    )
}

fn is_security(field: &[u8]) -> bool
    requires { length field.now ≡ 3 }
    ensures { result ≡ is_security field.now }
{
    both(is_letter(field[0]), stands(field, 1, &due::texts::BLANKS))
}

fn is_edition(field: &[u8]) -> bool
    requires { length field.now ≡ 2 }
    ensures { result ≡ is_edition field.now }
{
    both(are_digits(field, 0, 2), 1 <= decimal(field, 0, 2))
}

// One of the two vertical datums.
fn is_datum(field: &[u8]) -> bool
    requires { length field.now ≡ 3 }
    ensures { result ≡ is_datum field.now }
{
    either(
        stands(field, 0, &due::texts::MSL),
        stands(field, 0, &due::texts::E96),
    )
}

// Metres, or not available.
#[tactic(auto, unfolding(crate::specs::Rules::is_accuracy))]
fn is_accuracy(field: &[u8]) -> bool
    requires { length field.now ≡ 4 }
    ensures { result ≡ is_accuracy field.now }
{
    either(
        are_digits(field, 0, 4),
        stands(field, 0, &due::texts::NOT_AVAILABLE),
    )
}

// Whether the field of an item keeps its rule.
#[tactic(auto, unfolding(crate::specs::Rules::item_holds))]
pub fn item_holds(item: Item, field: &[u8]) -> bool
    requires { length field.now ≡ item_width item }
    ensures { result ≡ item_holds item field.now }
{
    match item {
        Item::Level => is_level(field),
        Item::Latitude => is_origin_field(NORTHWARD, field),
        Item::Longitude => is_origin_field(EASTWARD, field),
        Item::Security => is_security(field),
        Item::Edition => is_edition(field),
        Item::Version => is_version(field[0]),
        Item::Datum => is_datum(field),
        Item::Accuracy(_) => is_accuracy(field),
        Item::Partial => are_digits(field, 0, 2),
    }
}
