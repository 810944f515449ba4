// The library as a C host links it: include/dted.h says what each call is for. Each is the call of `dted` of its name, with that call's clauses.
// Kept: a call beside each call of `dted`, since no crate can stand on one that is made into an archive, and theorems stand on those.
#![tactic(auto)]

ghost use Rattle.std.specs.Prelude.{◌≡◌};
ghost use Rattle.years.specs.Years.{under, left_under};
ghost use Rattle.host_answers.specs.Packed.{packed};
ghost use Rattle.intake.specs.Intake.{taken};
ghost use Rattle.lookup.specs.Lookup.{looked_up};
ghost use Rattle.position.specs.Position.{located};
ghost use Rattle.edit.specs.Edit.{edit_told, edited};
ghost use Rattle.description.specs.Described.{described};
ghost use Rattle.dted.specs.Description.{said_of_described, items_after};
ghost use Rattle.dted.specs.Grid.{grid_told};
ghost use Rattle.host_writers.specs.Cell.{bytes_told, bytes_output};
ghost use Rattle.host_writers.specs.Column.{column_bytes_told, column_bytes_output};

use host_items::items::ITEMS;

#[unsafe(no_mangle)]
pub extern "C" fn dted_intake(named: u32, cell: &[u8]) -> u64
    ensures { result ≡ packed (under named (λ year. taken year cell.now)) }
{
    dted::cell_calls::dted_intake(named, cell)
}

#[unsafe(no_mangle)]
pub extern "C" fn dted_post(named: u32, cell: &[u8], column: u64, post: u64) -> u64
    ensures { result ≡ packed (under named (λ year. looked_up year cell.now column post)) }
{
    dted::cell_calls::dted_post(named, cell, column, post)
}

#[unsafe(no_mangle)]
pub extern "C" fn dted_position(named: u32, cell: &[u8], latitude: i64, longitude: i64) -> u64
    ensures { result ≡ packed (under named (λ year. located year cell.now latitude longitude)) }
{
    dted::cell_calls::dted_position(named, cell, latitude, longitude)
}

#[unsafe(no_mangle)]
pub extern "C" fn dted_edit(named: u32, cell: &mut [u8], column: u64, post: u64, height: i64) -> u64
    ensures answer { result ≡ packed (under named (λ year. edit_told year cell.old column post height)) }
    ensures lent { cell.new ≡ left_under named cell.old (λ year. edited year cell.old column post height) }
{
    dted::cell_calls::dted_edit(named, cell, column, post, height)
}

#[unsafe(no_mangle)]
pub extern "C" fn dted_describe(cell: &[u8], items: &mut [i64; ITEMS]) -> u64
    ensures answer { result ≡ packed (said_of_described (described cell.now)) }
    ensures lent { items.new ≡ items_after (described cell.now) items.old }
{
    dted::descriptions::dted_describe(cell, items)
}

#[unsafe(no_mangle)]
pub extern "C" fn dted_grid(level: u64, latitude: i64) -> u64
    ensures { result ≡ packed (grid_told level latitude) }
{
    dted::grids::dted_grid(level, latitude)
}

#[unsafe(no_mangle)]
pub extern "C" fn dted_write(named: u32, out: &mut [u8], items: &[i64; ITEMS], grid: &[u8]) -> u64
    ensures answer { result ≡ packed (under named (λ year. bytes_told year items.now grid.now out.old)) }
    ensures lent { out.new ≡ left_under named out.old (λ year. bytes_output year items.now grid.now out.old) }
{
    dted::writers::dted_write(named, out, items, grid)
}

#[unsafe(no_mangle)]
pub extern "C" fn dted_write_column(out: &mut [u8], level: u64, number: u64, posts: &[u8]) -> u64
    ensures answer { result ≡ packed (column_bytes_told level number posts.now out.old) }
    ensures lent { out.new ≡ column_bytes_output level number posts.now out.old }
{
    dted::writers::dted_write_column(out, level, number, posts)
}
