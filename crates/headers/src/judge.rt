// Judging headers: the first field in the order of the table that breaks its rule.
ghost use Rattle.std.specs.Prelude.{◌≡◌};
ghost use Rattle.fields.specs.Table.{field_at};
ghost use Rattle.headers.specs.Basis.{basis_in};
ghost use Rattle.headers.specs.Judged as by;
ghost use Rattle.headers.specs.Asked.{RowToTell, LatitudeInRange};

use crate::Facts;
use crate::readings::{level_at, origin};
use crate::rows::{FIRST, first_broken, four_keep, rest_keep};
use angles::{EASTWARD, NORTHWARD};
use answers::Refusal;
use due::{Basis, NOTHING};
use fields::FIELDS;
use layout::zones::near_edge;
use layout::{Frame, HEADER_BYTES};
use octets::choices::both;
use octets::digits::decimal;
use years::Year;

// The refusal of a row whose field breaks its rule: number and place are chosen here alone.
fn broken(s: &[u8], basis: Basis, row: usize) -> Refusal
    requires { RowToTell s.now basis row }
    ensures { result ≡ by.broken s.now basis (field_at row) }
{
    let field = fields::row(row);
    faults::broken(field.2, basis, field.0, field.bytes(s))
}

// The level, the origin and the security letter, once the first rows keep their rules.
#[tactic(auto, using(crate::proofs::FirstFour::level_below, layout::proofs::NearEdges::edge_below), unfolding(crate::specs::Basis::basis_in))]
fn basis_in(s: &[u8]) -> Basis
    requires { LatitudeInRange s.now }
    ensures { result ≡ basis_in s.now }
{
    let latitude = origin(NORTHWARD, s, fields::places::LATITUDE);
    Basis {
        grid: layout::grid_of(level_at(s), near_edge(latitude)),
        latitude,
        longitude: origin(EASTWARD, s, fields::places::LONGITUDE),
        letter: s[fields::places::SECURITY],
    }
}

// The facts of good headers, or the refusal of any bytes that do not begin with such. Kept: rows are asked together, and where one breaks its
// rule the search finds it: the promises of `four_keep` and `rest_keep` are of the rows that are judged.
pub fn judge(s: &[u8]) -> Result<Facts, Refusal>
    ensures { result ≡ by.judged s.now }
{
    if s.len() < HEADER_BYTES {
        return Err(Refusal::Short(s.len()));
    }
    if !four_keep(s, NOTHING, 0) {
        let row = first_broken(s, NOTHING, 0, FIRST).unwrap_or(FIRST);
        return Err(broken(s, NOTHING, row));
    }
    let basis = basis_in(s);
    if !rest_keep(s, basis) {
        let row = first_broken(s, basis, FIRST, FIELDS).unwrap_or(FIELDS);
        return Err(broken(s, basis, row));
    }
    Ok(Facts {
        grid: basis.grid,
        latitude: basis.latitude,
        longitude: basis.longitude,
        partial: decimal(s, fields::places::PARTIAL, 2),
    })
}

// Whether a cell with these headers may hold voids under a year: decided here alone.
fn may_hold_voids(year: Year, facts: Facts) -> bool
    ensures { result ≡ by.voids_allowed year facts }
{
    match year {
        Year::One => facts.partial != 0,
        Year::Two => both(facts.partial != 0, facts.grid.level == 2),
    }
}

// The frame of a cell with these headers, under a year.
pub fn frame_of(year: Year, facts: Facts) -> Frame
    ensures { result ≡ by.frame_of year facts }
{
    Frame {
        grid: facts.grid,
        voids: may_hold_voids(year, facts),
    }
}
