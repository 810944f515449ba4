// A description given back as numbers, in the items' order.
ghost use Rattle.std.specs.Prelude.{◌≡◌, true, ◌<◌, pos, ◌-ℤ◌};
ghost use Rattle.description.specs.Items.{in_range};
ghost use Rattle.host_items.specs.Items.{datum_number, accuracy_number, numbers_of};
ghost use Rattle.host_items.specs.Asked.{SmallDegrees};

use crate::items::ITEMS;
use description::{Accuracy, Datum, Description};

// A count as an item, and degrees counted from the end of their axis.
fn counting(n: usize) -> i64
    requires { n < 1000 }
    ensures { result ≡ pos n }
{
    n as i64
}

fn degrees(angle: usize, side: usize) -> i64
    requires { SmallDegrees angle side }
    ensures { result ≡ pos angle -ℤ pos side }
{
    angle as i64 - side as i64
}

// Kept: no From, since these numbers are C's alone, and `description` knows nothing of them.
fn datum_number(datum: Datum) -> i64
    ensures { result ≡ datum_number datum }
{
    match datum {
        Datum::Msl => 0,
        Datum::E96 => 1,
    }
}

fn accuracy_number(accuracy: Accuracy) -> i64
    ensures { result ≡ accuracy_number accuracy }
{
    match accuracy {
        Accuracy::Metres(metres) => i64::from(metres),
        Accuracy::Unknown => -1,
    }
}

fn numbers(d: Description) -> [i64; ITEMS]
    requires { in_range d ≡ true }
    ensures { result ≡ numbers_of d }
{
    [
        counting(d.level),
        degrees(d.latitude, 90),
        degrees(d.longitude, 180),
        i64::from(d.security),
        counting(d.edition),
        i64::from(d.version),
        datum_number(d.datum),
        accuracy_number(d.uhl),
        accuracy_number(d.absolute.horizontal),
        accuracy_number(d.absolute.vertical),
        accuracy_number(d.relative.horizontal),
        accuracy_number(d.relative.vertical),
        counting(d.partial),
    ]
}

// The numbers that a description in range is.
pub fn put_numbers(items: &mut [i64; ITEMS], d: Description)
    requires { in_range d ≡ true }
    ensures { items.new ≡ numbers_of d }
{
    *items = numbers(d);
}
