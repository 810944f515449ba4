// Putting one field: the text of an item, or what is due.
ghost use Rattle.std.specs.Prelude.{◌≡◌, ◌∷◌, length};
ghost use Rattle.octets.specs.Texts.{ascii};
ghost use Rattle.rules.specs.Rules.{item_width, width_of};
ghost use Rattle.header_writer.specs.Written.{accuracy_text, datum_text, item_text, text_for};
ghost use Rattle.header_writer.specs.Asked.{ToFill};

use angles::{EASTWARD, NORTHWARD, put_angle};
use description::items::accuracy_for;
use description::{Accuracy, Datum, Description};
use due::Basis;
use due::put::{put, put_due, put_number};
use due::texts::MMSS;
use fields::{Item, Kind};
use octets::pastes::paste;

fn put_accuracy(field: &mut [u8], accuracy: Accuracy)
    requires { length field.old ≡ 4 }
    ensures { field.new ≡ accuracy_text accuracy }
{
    match accuracy {
        Accuracy::Metres(metres) => put_number(field, 4, usize::from(metres)),
        Accuracy::Unknown => put(field, &due::texts::NOT_AVAILABLE),
    }
}

fn put_datum(field: &mut [u8], datum: Datum)
    requires { length field.old ≡ 3 }
    ensures { field.new ≡ datum_text datum }
{
    match datum {
        Datum::Msl => put(field, &due::texts::MSL),
        Datum::E96 => put(field, &due::texts::E96),
    }
}

#[tactic(auto, using(octets::proofs::PutLaws::put_byte))]
fn put_security(field: &mut [u8], letter: u8)
    requires { length field.old ≡ 3 }
    ensures { field.new ≡ letter ∷ ascii "  " }
{
    field[0] = letter;
    paste(field, 1, &due::texts::BLANKS);
}

// An item of the description, in its field. Kept: description and basis by themselves, since `item_text` has the first alone.
#[tactic(auto, unfolding(crate::specs::Written::item_text))]
fn put_item(field: &mut [u8], item: Item, d: Description, basis: Basis)
    requires { ToFill (item_width item) field.old d basis }
    ensures { field.new ≡ item_text item d }
{
    let grid = basis.grid;
    let interval = grid.interval;
    let datum = d.datum;
    match item {
        Item::Level => put_number(field, 4, interval.latitude),
        Item::Latitude => put_angle(field, 3, &MMSS, NORTHWARD, d.latitude),
        Item::Longitude => put_angle(field, 3, &MMSS, EASTWARD, d.longitude),
        Item::Security => put_security(field, d.security),
        Item::Edition => put_number(field, 2, d.edition),
        Item::Version => put(field, &[d.version]),
        Item::Datum => put_datum(field, datum),
        Item::Accuracy(whose) => put_accuracy(field, accuracy_for(whose, d)),
        Item::Partial => put_number(field, 2, d.partial),
    }
}

// What a description makes of a field of this kind.
#[tactic(auto, using(crate::proofs::TableTurns::origin_of))]
pub fn put_field(field: &mut [u8], kind: Kind, d: Description, basis: Basis)
    requires { ToFill (width_of kind) field.old d basis }
    ensures { field.new ≡ text_for kind d }
{
    match kind {
        Kind::Item(item) => put_item(field, item, d, basis),
        Kind::Due(due) => put_due(field, due, basis),
    }
}
