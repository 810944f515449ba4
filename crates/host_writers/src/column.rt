// The column writer for a C host: one column from a level, its number and its heights in bytes, voids allowed.
ghost use Rattle.std.specs.Prelude.{◌≡◌};
ghost use Rattle.answers.specs.Told as told;
ghost use Rattle.host_writers.specs.Column.{column_bytes_told, column_bytes_output};

use answers::Refusal;
use column_writer::write_from;
use sources::Bytes;

// Column `number` of a level from its heights, at the front of `out`; any numbers, any bytes.
pub fn write(out: &mut [u8], level: usize, number: usize, posts: &[u8]) -> Result<(), Refusal>
    ensures answer { told.told told.act result ≡ column_bytes_told level number posts.now out.old }
    ensures lent { out.new ≡ column_bytes_output level number posts.now out.old }
{
    write_from(out, level, number, Bytes(posts))
}
