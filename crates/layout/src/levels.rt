// The level's own numbers, and the length of a column.
ghost use Rattle.std.specs.Prelude.{◌≡◌, ◌^◌, ◌<◌};
ghost use Rattle.layout.specs.Levels.{latitude_interval, column_bytes};

// Tenths of an arc-second between two posts of a column, at levels 0, 1 and 2.
const INTERVALS: [usize; 3] = [300, 30, 10];

// The latitude interval of a level, 0 past the last level. Kept: no Option, since `grid_of` is defined of any level.
pub fn latitude_interval(level: usize) -> usize
    ensures { result ≡ latitude_interval level }
{
    INTERVALS.get(level).copied().unwrap_or(0)
}

// The bytes of a column: its preamble, two to a post, its checksum.
pub fn column_bytes(posts: usize) -> usize
    requires { column_bytes posts < 2 ^ 64 }
    ensures { result ≡ column_bytes posts }
{
    12 + 2 * posts
}
