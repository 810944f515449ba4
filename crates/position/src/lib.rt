// Lookup of a position: the post at or to the south-west of it, what remains, and the nearest post from those.
#![tactic(auto)]

ghost use Rattle.std.specs.Prelude.{◌≡◌, ◌≤◌};
ghost use Rattle.answers.specs.Told as told;
ghost use Rattle.years.specs.Years.{under};
ghost use Rattle.headers.specs.Judged.{frame_of};
ghost use Rattle.position.specs.Asked.{Cornered, Anchored, Passed};
ghost use Rattle.position.specs.Position as by;

use answers::{Located, Refusal};
use headers::Facts;
use headers::judge::{frame_of, judge};
use layout::DEGREE;
use lookup::reach::reach_in;
use lookup::read;
use years::Year;

// Tenths of an arc-second in the full circle.
const CIRCLE: usize = 360 * DEGREE;

// How far an axis reaches on each side of 0.
const LATITUDES: usize = 90 * DEGREE;

const LONGITUDES: usize = 180 * DEGREE;

// The post at or to the south-west of a position, and how far the position lies east and north of it.
#[derive(Clone, Copy)]
pub struct Corner {
    pub column: usize,
    pub post: usize,
    pub east: usize,
    pub north: usize,
}

// Tenths from the end of an axis that reaches `half` to each side; none off it.
fn on_axis(at: i64, half: usize) -> Option<usize>
    requires { half ≤ 6480000 }
    ensures { result ≡ by.along_axis half at }
{
    let distance = at.unsigned_abs() as usize;
    if half < distance {
        return None;
    }
    if at < 0 {
        Some(half - distance)
    } else {
        Some(half + distance)
    }
}

// Tenths from the cell's corner, which lies so many degrees from the end of the axis; round the circle, so that 180 E is 180 W; none off the cell.
fn from_corner(at: i64, half: usize, degrees: usize) -> Option<usize>
    requires { Cornered half degrees }
    ensures { result ≡ by.in_cell degrees (by.along_axis half at) }
{
    let tenths = on_axis(at, half)?;
    let offset = (tenths + (CIRCLE - degrees * DEGREE)) % CIRCLE;
    (offset <= DEGREE).then_some(offset)
}

// Where a position lies in a cell of these facts.
#[tactic(auto, unfolding(crate::specs::Position::south_west))]
fn south_west(facts: Facts, latitude: i64, longitude: i64) -> Option<Corner>
    requires { Anchored facts }
    ensures { result ≡ by.south_west facts latitude longitude }
{
    let interval = facts.grid.interval;
    let up = from_corner(latitude, LATITUDES, facts.latitude)?;
    let right = from_corner(longitude, LONGITUDES, facts.longitude)?;
    Some(Corner {
        column: right / interval.longitude,
        post: up / interval.latitude,
        east: right % interval.longitude,
        north: up % interval.latitude,
    })
}

// The nearest along one axis, from the one before and how far past it: a tie stays.
fn nearest(interval: usize, before: usize, past: usize) -> usize
    requires { Passed before past }
    ensures { result ≡ by.nearest interval before past }
{
    if interval < 2 * past {
        before + 1
    } else {
        before
    }
}

// A position under headers that were judged good.
fn locate_in(
    cell: &[u8],
    year: Year,
    facts: Facts,
    latitude: i64,
    longitude: i64,
) -> Result<Located, Refusal>
    requires { Anchored facts }
    ensures { told.told told.position result ≡ by.located_by cell.now (frame_of year facts) (by.south_west facts latitude longitude) }
{
    let interval = facts.grid.interval;
    let corner = south_west(facts, latitude, longitude).ok_or(Refusal::OffGrid)?;
    let column = nearest(interval.longitude, corner.column, corner.east);
    let post = nearest(interval.latitude, corner.post, corner.north);
    let reads = read(reach_in(cell, frame_of(year, facts), column, post))?;
    Ok(Located {
        column,
        post,
        reads,
    })
}

// The post nearest a position, by the rules of a year.
#[tactic(auto, unfolding(crate::specs::Position::located))]
fn locate_under(year: Year, cell: &[u8], latitude: i64, longitude: i64) -> Result<Located, Refusal>
    ensures { told.told told.position result ≡ by.located year cell.now latitude longitude }
{
    let facts = judge(cell)?;
    locate_in(cell, year, facts, latitude, longitude)
}

// Kept: latitude and longitude as two numbers, as `dted_position` has them in C and `located` in what is promised.
// The post nearest a position, and its height or void; any number for the rule year, any bytes and any numbers.
#[tactic(auto, using(years::proofs::YearLaws::under_refused))]
pub fn locate(named: u32, cell: &[u8], latitude: i64, longitude: i64) -> Result<Located, Refusal>
    ensures { told.told told.position result ≡ under named (λ year. by.located year cell.now latitude longitude) }
{
    let year = Year::try_from(named)?;
    locate_under(year, cell, latitude, longitude)
}
