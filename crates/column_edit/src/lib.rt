// Storing one post of a good column: its word, and the checksum that the column then has.
#![tactic(auto)]

ghost use Rattle.std.specs.Prelude.{◌≡◌};
ghost use Rattle.column_edit.specs.Asked.{Storable};
ghost use Rattle.column_edit.specs.Stored.{stored};

use columns::places::{sum_at, word_at};
use octets::numbers::{be32, put16, put32};
use octets::sums::sum;

// Kept: the count of posts beside the column, since `Storable` and `stored` count by it and the one caller has it.
// Post `post` of a column whose checksum is right made this word: its two bytes and the checksum's four are written.
pub fn store(column: &mut [u8], posts: usize, post: usize, word: u16)
    requires { Storable column.old posts post }
    ensures { column.new ≡ stored column.old posts post word }
{
    let at = word_at(post);
    let end = sum_at(posts);
    let old = sum(&column[at..at + 2]);
    let rest = be32(column, end) - old;
    put16(column, at, word);
    let new = sum(&column[at..at + 2]);
    put32(column, end, rest + new);
}
