// Many heights judged at once, by the lowest and the highest of them, so that a loop over them needs no branch.
ghost use Rattle.std.specs.Prelude.{◌≡◌};
ghost use Rattle.posts.specs.Spans.{passed_over, counted_as, span_in_range};

use crate::heights::VOID;
use octets::choices::both;

// The number that is passed over: void's where voids are allowed, else 0, which every cell may hold.
fn passed_over(voids: bool) -> i16
    ensures { result ≡ passed_over voids }
{
    if voids { VOID as i16 } else { 0 }
}

// A height as it counts among many: a void that is allowed counts as 0.
pub fn counted(height: i16, voids: bool) -> i16
    ensures { result ≡ counted_as voids height }
{
    if height == passed_over(voids) {
        0
    } else {
        height
    }
}

// Whether all heights from the lowest to the highest are in range.
pub fn in_range(lowest: i16, highest: i16) -> bool
    ensures { result ≡ span_in_range lowest highest }
{
    both(-12000 <= lowest, highest <= 9000)
}
