// Reaching one post of a cell: the headers are judged, then the post's column, and nothing else is read.
ghost use Rattle.std.specs.Prelude.{◌≡◌};
ghost use Rattle.layout.specs.Ranges.{Ranged};
ghost use Rattle.lookup.specs.Reach as by;

use answers::Refusal;
use columns::places::word_at;
use headers::judge::{frame_of, judge};
use layout::{Frame, HEADER_BYTES};
use octets::numbers::be16;
use years::Year;

// A post of a good column: where the column starts, how many posts it has, whether it may hold voids, and the post's word.
#[derive(Clone, Copy)]
pub struct Spot {
    pub start: usize,
    pub posts: usize,
    pub voids: bool,
    pub word: u16,
}

// A post under a frame.
pub fn reach_in(cell: &[u8], frame: Frame, column: usize, post: usize) -> Result<Spot, Refusal>
    requires { Ranged frame.grid }
    ensures { result ≡ by.reached_in cell.now frame column post }
{
    let grid = frame.grid;
    let posts = grid.posts;
    if grid.columns <= column {
        return Err(Refusal::OffGrid);
    }
    if posts <= post {
        return Err(Refusal::OffGrid);
    }
    let size = grid.bytes.column;
    let start = HEADER_BYTES + column * size;
    let end = start + size;
    if cell.len() < end {
        return Err(Refusal::Cut(start));
    }
    let part = &cell[start..end];
    columns::judge(part, column, posts, frame.voids, start)?;
    Ok(Spot {
        start,
        posts,
        voids: frame.voids,
        word: be16(part, word_at(post)),
    })
}

// A post of any bytes, by the rules of a year; any numbers.
#[tactic(auto, unfolding(crate::specs::Reach::reached))]
pub fn reach(year: Year, cell: &[u8], column: usize, post: usize) -> Result<Spot, Refusal>
    ensures { result ≡ by.reached year cell.now column post }
{
    let facts = judge(cell)?;
    reach_in(cell, frame_of(year, facts), column, post)
}
