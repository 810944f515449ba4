// One data column: its preamble, its checksum and its post words, judged and written over any number of posts.
#![tactic(auto)]

ghost use Rattle.std.specs.Prelude.{◌≡◌};
ghost use Rattle.columns.specs.Asked.{Whole, WholeSummed};
ghost use Rattle.columns.specs.Judged.{head_of, judged_column};

pub mod measure;
pub mod places;
pub mod write;

use crate::measure::{measure, search_from};
use crate::places::{sum_at, word_at};
use answers::Refusal;
use octets::numbers::{be16, be24, be32};
use posts::words::is_allowed;

// The preamble fields in their order, then the checksum against the sum that was found. Places count from `base`, the column's offset in the
// file.
pub fn judge_head(
    column: &[u8],
    number: usize,
    posts: usize,
    base: usize,
    sum: u32,
) -> Result<(), Refusal>
    requires { WholeSummed column.now posts base sum }
    ensures { result ≡ head_of column.now number posts base }
{
    if column[0] != 170 {
        return Err(Refusal::Preamble(base));
    }
    if be24(column, 1) as usize != number {
        return Err(Refusal::Preamble(base + 1));
    }
    if usize::from(be16(column, 4)) != number {
        return Err(Refusal::Preamble(base + 4));
    }
    if be16(column, 6) != 0 {
        return Err(Refusal::Preamble(base + 6));
    }
    let end = sum_at(posts);
    if be32(column, end) != sum {
        return Err(Refusal::Checksum(base + end));
    }
    Ok(())
}

// The preamble, the checksum, then the first word that is not allowed: it is looked for only where there is one.
// Kept: posts and voids by themselves, as `judged_column` has them.
pub fn judge(
    column: &[u8],
    number: usize,
    posts: usize,
    voids: bool,
    base: usize,
) -> Result<(), Refusal>
    requires { Whole column.now posts base }
    ensures { result ≡ judged_column column.now number posts voids base }
{
    let measured = measure(column, posts, voids);
    judge_head(column, number, posts, base, measured.sum)?;
    for i in search_from(measured, posts)..posts {
        let at = word_at(i);
        if !is_allowed(be16(column, at), voids) {
            return Err(Refusal::Word(base + at));
        }
    }
    Ok(())
}
