// The writers.
ghost use Rattle.std.specs.Prelude.{◌≡◌};
ghost use Rattle.years.specs.Years.{under, left_under};
ghost use Rattle.host_answers.specs.Packed.{packed};
ghost use Rattle.host_writers.specs.Cell.{bytes_told, bytes_output};
ghost use Rattle.host_writers.specs.Column.{column_bytes_told, column_bytes_output};

use host_items::items::ITEMS;

pub fn dted_write(named: u32, out: &mut [u8], items: &[i64; ITEMS], grid: &[u8]) -> u64
    ensures answer { result ≡ packed (under named (λ year. bytes_told year items.now grid.now out.old)) }
    ensures lent { out.new ≡ left_under named out.old (λ year. bytes_output year items.now grid.now out.old) }
{
    let answer = host_writers::cell::write(named, out, items, grid);
    host_answers::outcome(answer)
}

pub fn dted_write_column(out: &mut [u8], level: u64, number: u64, posts: &[u8]) -> u64
    ensures answer { result ≡ packed (column_bytes_told level number posts.now out.old) }
    ensures lent { out.new ≡ column_bytes_output level number posts.now out.old }
{
    let answer = host_writers::column::write(out, level as usize, number as usize, posts);
    host_answers::outcome(answer)
}
