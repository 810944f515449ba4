// The items of a description, given as numbers: ranged, and made a description.
ghost use Rattle.std.specs.Prelude.{◌≡◌, ◌<◌, pos, ◌+ℤ◌, None};
ghost use Rattle.std.specs.Int.Signed.{le_z};
ghost use Rattle.rules.specs.Rules.{is_letter, is_version};
ghost use Rattle.octets.specs.Ranges.{between};
ghost use Rattle.host_items.specs.Items.{item, is_accuracy, number_tests, bad_number, counted, datum_for, accuracy_for, description_of};
ghost use Rattle.host_items.specs.Asked.{ItemThat, ItemOnAxis};

use description::items::first_failed;
use description::{Accuracies, Accuracy, Datum, Description};
use octets::choices::both;
use rules::letters::{is_letter, is_version};

// Kept: beside the thirteen tests of `description`, since here it is the length of C's array.
pub const ITEMS: usize = 13;

// Whether item number i + 1 lies in a range.
fn lies(items: &[i64; ITEMS], i: usize, low: i64, high: i64) -> bool
    requires { i < 13 }
    ensures { result ≡ between low high (item items.now i) }
{
    (low..=high).contains(&items[i])
}

// Whether there is a security letter, and a match version; a number that is no byte is neither.
fn has_security(items: &[i64; ITEMS]) -> bool
    ensures { result ≡ is_letter (counted (item items.now 3)) }
{
    u8::try_from(items[3]).is_ok_and(is_letter)
}

// Kept: beside `has_security`, since a test as a parameter would have to be stated at both calls.
fn has_version(items: &[i64; ITEMS]) -> bool
    ensures { result ≡ is_version (counted (item items.now 5)) }
{
    u8::try_from(items[5]).is_ok_and(is_version)
}

// Whether each item is in its range, in the items' order.
#[tactic(auto, unfolding(crate::specs::Items::number_tests))]
fn number_tests(items: &[i64; ITEMS]) -> [bool; ITEMS]
    ensures { result ≡ number_tests items.now }
{
    [
        lies(items, 0, 0, 2),
        lies(items, 1, -90, 89),
        lies(items, 2, -180, 179),
        has_security(items),
        lies(items, 4, 1, 99),
        has_version(items),
        lies(items, 6, 0, 1),
        lies(items, 7, -1, 9999),
        lies(items, 8, -1, 9999),
        lies(items, 9, -1, 9999),
        lies(items, 10, -1, 9999),
        lies(items, 11, -1, 9999),
        lies(items, 12, 0, 99),
    ]
}

// The number of the lowest item that is out of range, or none.
pub fn bad_number(items: &[i64; ITEMS]) -> Option<usize>
    ensures { result ≡ bad_number items.now }
{
    first_failed(&number_tests(items))
}

// Kept: conversions by functions, here and in `numbers`: what the thirteen numbers mean is the C interface's, and no `From` of the types.
// An item that is a byte, as a letter is.
fn letter(items: &[i64; ITEMS], i: usize) -> u8
    requires { ItemThat (between (pos 0) (pos 255)) items.now i }
    ensures { result ≡ counted (item items.now i) }
{
    items[i] as u8
}

// An item that is not below 0, as a count.
fn count(items: &[i64; ITEMS], i: usize) -> usize
    requires { ItemThat (le_z (pos 0)) items.now i }
    ensures { result ≡ counted (item items.now i) }
{
    items[i] as usize
}

// An item in whole degrees, counted from the end of its axis.
fn angle(items: &[i64; ITEMS], i: usize, side: usize) -> usize
    requires { ItemOnAxis items.now i side }
    ensures { result ≡ counted (item items.now i +ℤ pos side) }
{
    (items[i] + side as i64) as usize
}

fn datum(items: &[i64; ITEMS]) -> Datum
    ensures { result ≡ datum_for (item items.now 6) }
{
    if lies(items, 6, 0, 0) {
        Datum::Msl
    } else {
        Datum::E96
    }
}

fn accuracy(items: &[i64; ITEMS], i: usize) -> Accuracy
    requires { ItemThat is_accuracy items.now i }
    ensures { result ≡ accuracy_for (item items.now i) }
{
    let z = items[i];
    if z < 0 {
        return Accuracy::Unknown;
    }
    Accuracy::Metres(z as u16)
}

// The description that numbers in range say.
pub fn description(items: &[i64; ITEMS]) -> Description
    requires { bad_number items.now ≡ None }
    ensures { result ≡ description_of items.now }
{
    Description {
        level: count(items, 0),
        latitude: angle(items, 1, 90),
        longitude: angle(items, 2, 180),
        security: letter(items, 3),
        edition: count(items, 4),
        version: letter(items, 5),
        datum: datum(items),
        uhl: accuracy(items, 7),
        absolute: Accuracies {
            horizontal: accuracy(items, 8),
            vertical: accuracy(items, 9),
        },
        relative: Accuracies {
            horizontal: accuracy(items, 10),
            vertical: accuracy(items, 11),
        },
        partial: count(items, 12),
    }
}
