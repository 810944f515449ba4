// The edit: one post of a cell made another height or void, its column changed as a part of the cell.
#![tactic(auto)]

ghost use Rattle.std.specs.Prelude.{◌≡◌};
ghost use Rattle.answers.specs.Told as told;
ghost use Rattle.years.specs.Years.{under, left_under};
ghost use Rattle.edit.specs.Edit.{edit_told, edited};

use answers::Refusal;
use column_edit::store;
use layout::levels::column_bytes;
use lookup::reach::reach;
use posts::heights::{is_allowed, word_of};
use years::Year;

// The edit by the rules of a year.
#[tactic(auto, unfolding(crate::specs::Edit::edit_told, crate::specs::Edit::judged_edit, crate::specs::Edit::edited))]
fn edit_under(
    year: Year,
    cell: &mut [u8],
    column: usize,
    post: usize,
    height: i64,
) -> Result<(), Refusal>
    ensures answer { told.told told.act result ≡ edit_told year cell.old column post height }
    ensures lent { cell.new ≡ edited year cell.old column post height }
{
    let spot = reach(year, cell, column, post)?;
    if !is_allowed(height, spot.voids) {
        return Err(Refusal::Height(0));
    }
    let word = word_of(height);
    let end = spot.start + column_bytes(spot.posts);
    store(&mut cell[spot.start..end], spot.posts, post, word);
    Ok(())
}

// Post `post` of column `column` made this height, or void's number; any number for the rule year, any bytes and any numbers.
#[tactic(auto, using(years::proofs::YearLaws::under_refused))]
pub fn edit(
    named: u32,
    cell: &mut [u8],
    column: usize,
    post: usize,
    height: i64,
) -> Result<(), Refusal>
    ensures answer { told.told told.act result ≡ under named (λ year. edit_told year cell.old column post height) }
    ensures lent { cell.new ≡ left_under named cell.old (λ year. edited year cell.old column post height) }
{
    let year = Year::try_from(named)?;
    edit_under(year, cell, column, post, height)
}
