// The numbers of the grid, by their names in the field table.
ghost use Rattle.std.specs.Prelude.{◌≡◌};
ghost use Rattle.due.specs.Due.{number_of};

use fields::Number;
use layout::Grid;

// The number that the grid makes due.
pub fn number(number: Number, grid: Grid) -> usize
    ensures { result ≡ number_of number grid }
{
    let interval = grid.interval;
    match number {
        Number::LatitudeInterval => interval.latitude,
        Number::LongitudeInterval => interval.longitude,
        Number::Columns => grid.columns,
        Number::Posts => grid.posts,
    }
}
