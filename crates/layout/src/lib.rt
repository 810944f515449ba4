// Levels and latitude zones: what grid of posts a cell has, and how long its columns and the cell are.
#![tactic(auto)]

ghost use Rattle.std.specs.Prelude.{◌≡◌};
ghost use Rattle.layout.specs.Grid.{grid_of, laid};
ghost use Rattle.layout.specs.Asked.{HasGrid};

pub mod levels;
pub mod zones;

// Tenths of an arc-second in a degree.
pub const DEGREE: usize = 36000;

pub const HEADER_BYTES: usize = 3428;

// Tenths of an arc-second between neighbouring posts of a column, and between neighbouring columns.
#[derive(Clone, Copy)]
pub struct Interval {
    pub latitude: usize,
    pub longitude: usize,
}

// Lengths in bytes.
#[derive(Clone, Copy)]
pub struct Bytes {
    pub column: usize,
    pub cell: usize,
}

// The grid of a cell: its columns, and the posts to a column.
#[derive(Clone, Copy)]
pub struct Grid {
    pub level: usize,
    pub factor: usize,
    pub interval: Interval,
    pub columns: usize,
    pub posts: usize,
    pub bytes: Bytes,
}

// What the columns of a cell are held to: its grid, and whether it may hold voids.
#[derive(Clone, Copy)]
pub struct Frame {
    pub grid: Grid,
    pub voids: bool,
}

// Why a level and a near edge make no grid.
#[derive(Clone, Copy)]
pub enum NoGrid {
    Level,
    Zone,
}

// The grid of a level and a near edge that there are.
pub fn grid_of(level: usize, edge: usize) -> Grid
    requires { HasGrid level edge }
    ensures { result ≡ grid_of level edge }
{
    let factor = zones::factor(edge);
    let latitude = levels::latitude_interval(level);
    let longitude = latitude * factor;
    let columns = DEGREE / longitude + 1;
    let posts = DEGREE / latitude + 1;
    let column = levels::column_bytes(posts);
    let cell = HEADER_BYTES + columns * column;
    Grid {
        level,
        factor,
        interval: Interval {
            latitude,
            longitude,
        },
        columns,
        posts,
        bytes: Bytes { column, cell },
    }
}

// What a level and a near edge make due; any numbers.
#[tactic(auto, unfolding(crate::specs::Grid::laid))]
pub fn lay(level: usize, edge: usize) -> Result<Grid, NoGrid>
    ensures { result ≡ laid level edge }
{
    if 3 <= level {
        return Err(NoGrid::Level);
    }
    if 90 <= edge {
        return Err(NoGrid::Zone);
    }
    Ok(grid_of(level, edge))
}
