// A column measured part by part, in one pass: the sum that its checksum must be, and whether each of its words is allowed.
ghost use Rattle.std.specs.Prelude.{◌≡◌, take};
ghost use Rattle.octets.specs.Choice.{pick};
ghost use Rattle.octets.specs.Sums.{sum_of};
ghost use Rattle.posts.specs.Words.{words_allowed};
ghost use Rattle.columns.specs.Asked.{Full};
ghost use Rattle.columns.specs.Column.{sum_at};

use crate::places::word_at;
use octets::choices::both;
use posts::parts::{MOST, Measured, measure_part};

// The preamble, as four words of which the sum alone counts, then the whole parts and the rest of the words.
// Kept: a sum and a test side by side: a word that is not allowed is told after the preamble and the checksum, which need the sum.
pub fn measure(column: &[u8], posts: usize, voids: bool) -> Measured
    requires { Full column.now posts }
    ensures summed { result.sum ≡ sum_of (take (sum_at posts) column.now) }
    ensures allowed { result.allowed ≡ words_allowed voids column.now 8 posts }
{
    let preamble = measure_part(column, 0, 4, voids);
    let mut total = preamble.sum;
    let mut allowed = true;
    let parts = posts / MOST;
    for part in 0..parts {
        let measured = measure_part(column, word_at(part * MOST), MOST, voids);
        total += measured.sum;
        allowed = both(allowed, measured.allowed);
    }
    let rest = measure_part(column, word_at(parts * MOST), posts % MOST, voids);
    Measured {
        sum: total + rest.sum,
        allowed: both(allowed, rest.allowed),
    }
}

// Where a search for a word that is not allowed starts: after the last word, where there is none such.
// Kept: a place to start from, and no early return: intake's search stands inside its loop over columns.
pub fn search_from(measured: Measured, posts: usize) -> usize
    ensures { result ≡ pick measured.allowed posts 0 }
{
    if measured.allowed { posts } else { 0 }
}
