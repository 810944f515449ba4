// The items of a description, each in its range.
ghost use Rattle.std.specs.Prelude.{◌≡◌};
ghost use Rattle.description.specs.Items.{accuracy_ranged, item_tests, first_failed, bad_item, accuracy_for};

use crate::{Accuracy, Description};
use fields::Whose;
use octets::choices::both;
use rules::letters::{is_letter, is_version};

// The accuracy of this one.
pub fn accuracy_for(whose: Whose, d: Description) -> Accuracy
    ensures { result ≡ accuracy_for whose d }
{
    match whose {
        Whose::Uhl => d.uhl,
        Whose::AbsoluteHorizontal => d.absolute.horizontal,
        Whose::AbsoluteVertical => d.absolute.vertical,
        Whose::RelativeHorizontal => d.relative.horizontal,
        Whose::RelativeVertical => d.relative.vertical,
    }
}

fn accuracy_ranged(whose: Whose, d: Description) -> bool
    ensures { result ≡ accuracy_ranged (accuracy_for whose d) }
{
    match accuracy_for(whose, d) {
        Accuracy::Metres(metres) => metres <= 9999,
        Accuracy::Unknown => true,
    }
}

const ITEMS: usize = 13;

// Whether each item is in its range, in the items' order; either datum is.
#[tactic(auto, unfolding(crate::specs::Items::item_tests))]
fn item_tests(d: Description) -> [bool; ITEMS]
    ensures { result ≡ item_tests d }
{
    [
        d.level < 3,
        d.latitude < 180,
        d.longitude < 360,
        is_letter(d.security),
        (1..=99).contains(&d.edition),
        is_version(d.version),
        true,
        accuracy_ranged(Whose::Uhl, d),
        accuracy_ranged(Whose::AbsoluteHorizontal, d),
        accuracy_ranged(Whose::AbsoluteVertical, d),
        accuracy_ranged(Whose::RelativeHorizontal, d),
        accuracy_ranged(Whose::RelativeVertical, d),
        d.partial <= 99,
    ]
}

// The number of the first test that fails, counted from 1, or none.
pub fn first_failed(tests: &[bool]) -> Option<usize>
    ensures { result ≡ first_failed 1 tests.now }
{
    tests.iter().position(|test| !*test).map(|at| at + 1)
}

// The number of the lowest item that is out of range, or none.
pub fn bad_item(d: Description) -> Option<usize>
    ensures { result ≡ bad_item d }
{
    first_failed(&item_tests(d))
}
