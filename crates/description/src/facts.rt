// What headers written from a description will say.
ghost use Rattle.std.specs.Prelude.{◌≡◌, true};
ghost use Rattle.description.specs.Items.{in_range};
ghost use Rattle.description.specs.Facts.{facts_for};

use crate::Description;
use headers::Facts;
use layout::zones::near_edge;

// The facts of a description whose items are in range.
// Kept: the ranges are asked, and no invariant of `Description`: `description:Described.items_in` makes one of any bytes.
#[tactic(auto, using(crate::proofs::LaidGrids::edge_within), unfolding(crate::specs::Facts::facts_for, crate::specs::Facts::basis_of))]
pub fn facts_for(d: Description) -> Facts
    requires { in_range d ≡ true }
    ensures { result ≡ facts_for d }
{
    Facts {
        grid: layout::grid_of(d.level, near_edge(d.latitude)),
        latitude: d.latitude,
        longitude: d.longitude,
        partial: d.partial,
    }
}
