// The grid of a level and an origin latitude.
ghost use Rattle.std.specs.Prelude.{◌≡◌};
ghost use Rattle.host_answers.specs.Packed.{packed};
ghost use Rattle.dted.specs.Grid.{from_south, grid_told};

use answers::Refusal;
use layout::NoGrid;
use layout::zones::near_edge;

// An origin's latitude, counted from 90 S; any other number is 180, the pole, where no cell begins.
#[tactic(auto, unfolding(crate::specs::Grid::from_south))]
fn from_south(latitude: i64) -> usize
    ensures { result ≡ from_south latitude }
{
    match latitude {
        -90..=89 => (latitude + 90) as usize,
        _ => 180,
    }
}

pub fn dted_grid(level: u64, latitude: i64) -> u64
    ensures { result ≡ packed (grid_told level latitude) }
{
    match layout::lay(level as usize, near_edge(from_south(latitude))) {
        Ok(grid) => host_answers::grid(grid.level, grid.columns, grid.posts),
        Err(NoGrid::Level) => host_answers::refusal(Refusal::Item(1)),
        Err(NoGrid::Zone) => host_answers::refusal(Refusal::Item(2)),
    }
}
