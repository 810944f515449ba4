// The writer of a whole cell for a C host: items as numbers, and a grid of heights in bytes.
ghost use Rattle.std.specs.Prelude.{◌≡◌};
ghost use Rattle.answers.specs.Told as told;
ghost use Rattle.years.specs.Years.{under, left_under};
ghost use Rattle.host_writers.specs.Cell.{bytes_told, bytes_output};

use answers::Refusal;
use cell_writer::write_ranged;
use host_items::items::{ITEMS, bad_number, description};
use sources::Bytes;
use years::Year;

// The writer by the rules of a year. Kept: beside that of `cell_writer`, since numbers are judged as numbers before they are a description.
fn write_under(year: Year, out: &mut [u8], items: &[i64; ITEMS], grid: &[u8]) -> Result<(), Refusal>
    ensures answer { told.told told.act result ≡ bytes_told year items.now grid.now out.old }
    ensures lent { out.new ≡ bytes_output year items.now grid.now out.old }
{
    if let Some(number) = bad_number(items) {
        return Err(Refusal::Item(number));
    }
    write_ranged(year, out, description(items), Bytes(grid))
}

// The cell of items and a grid of heights, at the front of `out`; any number for the rule year, any numbers, any bytes.
pub fn write(named: u32, out: &mut [u8], items: &[i64; ITEMS], grid: &[u8]) -> Result<(), Refusal>
    ensures answer { told.told told.act result ≡ under named (λ year. bytes_told year items.now grid.now out.old) }
    ensures lent { out.new ≡ left_under named out.old (λ year. bytes_output year items.now grid.now out.old) }
{
    let year = Year::try_from(named)?;
    write_under(year, out, items, grid)
}
