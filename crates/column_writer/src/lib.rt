// The column writer: one column from a level, its number and its heights, voids allowed.
#![tactic(auto)]

ghost use Rattle.std.specs.Prelude.{◌≡◌};
ghost use Rattle.answers.specs.Told as told;
ghost use Rattle.column_writer.specs.Column.{placed, column_told_from, column_output_from, column_told, column_output};

pub mod judge;

use crate::judge::judge_posts;
use answers::Refusal;
use columns::write::put_column;
use layout::Grid;
use sources::{Heights, Numbers};

// The level's zone I grid, which has column `number`, or why there is no such column; any numbers.
// Kept: its own test of the level, and not `layout::lay`, whose error for a zone could not come here.
pub fn place(level: usize, number: usize) -> Result<Grid, Refusal>
    ensures { result ≡ placed level number }
{
    if 3 <= level {
        return Err(Refusal::Item(1));
    }
    let grid = layout::grid_of(level, 0);
    if grid.columns <= number {
        return Err(Refusal::OffGrid);
    }
    Ok(grid)
}

// Column `number` of a level from what is given, at the front of `out`; any level and number, any source.
pub fn write_from<H: Heights>(
    out: &mut [u8],
    level: usize,
    number: usize,
    heights: H,
) -> Result<(), Refusal>
    ensures answer { told.told told.act result ≡ column_told_from level number (H.given heights) out.old }
    ensures lent { out.new ≡ column_output_from level number (H.given heights) out.old }
{
    let grid = place(level, number)?;
    let posts = grid.posts;
    let end = grid.bytes.column;
    judge_posts(heights, true, posts, end, out.len())?;
    put_column(&mut out[0..end], number, heights, 0, posts);
    Ok(())
}

// Column `number` of a level from its heights, at the front of `out`; any numbers, any heights.
pub fn write(out: &mut [u8], level: usize, number: usize, heights: &[i16]) -> Result<(), Refusal>
    ensures answer { told.told told.act result ≡ column_told level number heights.now out.old }
    ensures lent { out.new ≡ column_output level number heights.now out.old }
{
    write_from(out, level, number, Numbers(heights))
}
