// Latitude zones: the near edge of a cell, and the zone's factor.
ghost use Rattle.std.specs.Prelude.{◌≡◌, ◌<◌};
ghost use Rattle.layout.specs.Zones.{edge_of, last_edge, factor_of};

// Zones I to V: each ends before its bound, and its longitude interval is so many latitude intervals. Kept: two arrays, as
// the scope has them (K5).
const BOUNDS: [usize; 5] = [50, 70, 75, 80, 90];

const FACTORS: [usize; 5] = [1, 2, 3, 4, 6];

// The whole-degree parallel of a cell nearer the equator, from the latitude of its origin, counted from 90 S.
#[tactic(auto, unfolding(crate::specs::Zones::edge_of))]
pub fn near_edge(latitude: usize) -> usize
    ensures { result ≡ edge_of latitude }
{
    if 90 <= latitude {
        latitude - 90
    } else {
        89 - latitude
    }
}

// The near edge of a zone that lies nearest its pole; zones are counted from 0.
pub fn last_edge(zone: usize) -> usize
    requires { zone < 5 }
    ensures { result ≡ last_edge zone }
{
    BOUNDS[zone] - 1
}

// The factor of the zone that an edge lies in, 0 past the last zone. Kept: no Option, since `grid_of` is defined of any edge.
pub fn factor(edge: usize) -> usize
    ensures { result ≡ factor_of edge }
{
    for (bound, factor) in BOUNDS.iter().zip(&FACTORS) {
        if edge < *bound {
            return *factor;
        }
    }
    0
}
