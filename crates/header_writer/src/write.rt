// Headers written from a description whose items are in range.
ghost use Rattle.std.specs.Prelude.{◌≡◌, ◌++◌, length, drop};
ghost use Rattle.layout.specs.Grid.{header_bytes};
ghost use Rattle.fields.specs.Table.{fields};
ghost use Rattle.fields.specs.Free.{areas};
ghost use Rattle.header_writer.specs.Written.{with_fields, with_areas, free_bytes, headers_for};
ghost use Rattle.header_writer.specs.Asked.{ToFill, HeadersFit};

use crate::put::put_field;
use description::Description;
use due::Basis;
use fields::free::{AREAS, DATE};
use fields::{FIELDS, Field, row};
use layout::{Grid, HEADER_BYTES};
use octets::pastes::fill;

// The date of the product specification.
const SPECIFIED: [u8; 4] = *b"0005";

fn put_areas(head: &mut [u8])
    requires { length head.old ≡ header_bytes }
    ensures { head.new ≡ with_areas head.old areas }
{
    for area in AREAS {
        fill(head, area.0, area.1, b'0');
    }
}

// The bytes that no field holds, and anything where fields will stand.
fn put_free(head: &mut [u8])
    requires { length head.old ≡ header_bytes }
    ensures { head.new ≡ free_bytes }
{
    fill(head, 0, HEADER_BYTES, b' ');
    put_areas(head);
    octets::pastes::paste(head, DATE, &SPECIFIED);
}

fn put_fields(head: &mut [u8], d: Description, basis: Basis)
    requires { ToFill header_bytes head.old d basis }
    ensures { head.new ≡ with_fields head.old d fields }
{
    for i in 0..FIELDS {
        let Field(at, len, kind) = row(i);
        put_field(&mut head[at..at + len], kind, d, basis);
    }
}

#[tactic(auto, unfolding(crate::specs::Written::headers_for))]
fn put_all(head: &mut [u8], d: Description, basis: Basis)
    requires { ToFill header_bytes head.old d basis }
    ensures { head.new ≡ headers_for d }
{
    put_free(head);
    put_fields(head, d, basis);
}

// The headers at the front of `out`, for the grid that the description makes due; every byte past them stays.
pub fn put_headers(out: &mut [u8], d: Description, grid: Grid)
    requires { HeadersFit out.old d grid }
    ensures { out.new ≡ headers_for d ++ drop header_bytes out.old }
{
    let basis = Basis {
        grid,
        latitude: d.latitude,
        longitude: d.longitude,
        letter: d.security,
    };
    put_all(&mut out[0..HEADER_BYTES], d, basis);
}
