// The writer of a whole cell: headers from a description, then the columns of what is given, from any source.
#![tactic(auto)]

ghost use Rattle.std.specs.Prelude.{◌≡◌, true, length, Ok};
ghost use Rattle.answers.specs.Told as told;
ghost use Rattle.years.specs.Years.{under, left_under};
ghost use Rattle.cells.specs.Grid.{columns_written};
ghost use Rattle.description.specs.Items.{in_range};
ghost use Rattle.sources.specs.Heights.{heights_of};
ghost use Rattle.column_writer.specs.Judged.{output_after};
ghost use Rattle.cell_writer.specs.Asked.{ColumnsFit, CellFits};
ghost use Rattle.cell_writer.specs.Cell.{frame_for, judged_under, cell_of, output_under, cell_told, cell_output};

use answers::Refusal;
use column_writer::judge::judge_posts;
use columns::write::put_column;
use description::Description;
use description::facts::facts_for;
use description::items::bad_item;
use header_writer::write::put_headers;
use headers::judge::frame_of;
use layout::levels::column_bytes;
use layout::{Grid, HEADER_BYTES};
use sources::{Heights, Numbers};
use years::Year;

// The columns of a grid, each from its part of the heights.
// Kept: places and not chunks_exact_mut: once its chunks are given back, a proof knows nothing of the bytes in them.
fn put_columns<H: Heights>(out: &mut [u8], columns: usize, posts: usize, heights: H)
    requires { ColumnsFit out.old columns posts (H.given heights) }
    ensures { out.new ≡ columns_written posts (heights_of (H.given heights)) columns }
{
    let size = column_bytes(posts);
    for k in 0..columns {
        let at = k * size;
        put_column(&mut out[at..at + size], k, heights, k * posts, posts);
    }
}

// The cell at the front of `out`; every byte past it stays.
fn put_cell<H: Heights>(out: &mut [u8], d: Description, grid: Grid, heights: H)
    requires { CellFits out.old d grid (H.given heights) }
    ensures { out.new ≡ output_after (Ok tt) (cell_of d (heights_of (H.given heights))) out.old }
{
    let end = grid.bytes.cell;
    put_headers(out, d, grid);
    put_columns(
        &mut out[HEADER_BYTES..end],
        grid.columns,
        grid.posts,
        heights,
    );
}

// The cell of items in range and of what is given, by the rules of a year, at the front of `out`.
pub fn write_ranged<H: Heights>(
    year: Year,
    out: &mut [u8],
    d: Description,
    heights: H,
) -> Result<(), Refusal>
    requires { in_range d ≡ true }
    ensures answer { result ≡ judged_under (frame_for year d) (H.given heights) (length out.old) }
    ensures lent { out.new ≡ output_under year d (H.given heights) out.old }
{
    let frame = frame_of(year, facts_for(d));
    let grid = frame.grid;
    let posts = grid.columns * grid.posts;
    judge_posts(heights, frame.voids, posts, grid.bytes.cell, out.len())?;
    put_cell(out, d, grid, heights);
    Ok(())
}

// The writer by the rules of a year.
fn write_under(year: Year, out: &mut [u8], d: Description, heights: &[i16]) -> Result<(), Refusal>
    ensures answer { told.told told.act result ≡ cell_told year d heights.now out.old }
    ensures lent { out.new ≡ cell_output year d heights.now out.old }
{
    if let Some(item) = bad_item(d) {
        return Err(Refusal::Item(item));
    }
    write_ranged(year, out, d, Numbers(heights))
}

// The cell of a description and a grid of heights, at the front of `out`; any number for the rule year, any items, any heights.
pub fn write(named: u32, out: &mut [u8], d: Description, heights: &[i16]) -> Result<(), Refusal>
    ensures answer { told.told told.act result ≡ under named (λ year. cell_told year d heights.now out.old) }
    ensures lent { out.new ≡ left_under named out.old (λ year. cell_output year d heights.now out.old) }
{
    let year = Year::try_from(named)?;
    write_under(year, out, d, heights)
}
