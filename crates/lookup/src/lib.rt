// Lookup of one post by its column and number.
#![tactic(auto)]

ghost use Rattle.std.specs.Prelude.{◌≡◌};
ghost use Rattle.answers.specs.Told as told;
ghost use Rattle.years.specs.Years.{under};
ghost use Rattle.lookup.specs.Lookup.{reading_of, looked_up};

pub mod reach;

use crate::reach::{Spot, reach};
use answers::Refusal;
use posts::Post;
use posts::words::post_of;
use years::Year;

// What a post reads as that was reached, or why it was not.
pub fn read(reached: Result<Spot, Refusal>) -> Result<Post, Refusal>
    ensures { result ≡ reading_of reached }
{
    reached.map(|spot| post_of(spot.word))
}

// Kept: column and post as two numbers, as `dted_post` and `dted_edit` have them in C and `reached` in what is promised.
// The height or void of a post, 0 being the southern one of its column; any number for the rule year, any bytes and any numbers.
#[tactic(auto, using(years::proofs::YearLaws::under_refused), unfolding(crate::specs::Lookup::looked_up))]
pub fn look_up(named: u32, cell: &[u8], column: usize, post: usize) -> Result<Post, Refusal>
    ensures { told.told told.post result ≡ under named (λ year. looked_up year cell.now column post) }
{
    let year = Year::try_from(named)?;
    read(reach(year, cell, column, post))
}
