// What every writer judges of what it is given, from whatever source, and of the output.
ghost use Rattle.std.specs.Prelude.{◌≡◌, ◌-◌, Ok};
ghost use Rattle.sources.specs.Heights.{count_of};
ghost use Rattle.columns.specs.Asked.{Reaches};
ghost use Rattle.column_writer.specs.Judged.{heights_allowed, heights_from_then, heights_then, room_for, judged_posts};

use answers::Refusal;
use octets::extremes::{larger, smaller};
use posts::heights::is_allowed;
use posts::spans::{counted, in_range};
use sources::Heights;

// How many heights are judged at once.
const MOST: usize = 1024;

// Room for so many bytes.
fn judge_room(due: usize, room: usize) -> Result<(), Refusal>
    ensures { result ≡ room_for due room }
{
    if room < due {
        return Err(Refusal::Room(due));
    }
    Ok(())
}

// Whether each of n heights, from height `from` on, may be held: by the lowest and the highest of them.
fn are_allowed<H: Heights>(heights: H, voids: bool, from: usize, n: usize) -> bool
    requires { Reaches (H.given heights) from n }
    ensures { result ≡ heights_allowed voids (H.given heights) from n }
{
    let mut lowest: i16 = 0;
    let mut highest: i16 = 0;
    for i in 0..n {
        let height = counted(heights.at(from + i), voids);
        lowest = smaller(lowest, height);
        highest = larger(highest, height);
    }
    in_range(lowest, highest)
}

// The first height or void, from height `from` on, that may not be held.
fn judge_one_by_one<H: Heights>(
    heights: H,
    voids: bool,
    from: usize,
    posts: usize,
) -> Result<(), Refusal>
    requires { count_of (H.given heights) ≡ posts }
    ensures { result ≡ heights_from_then voids (H.given heights) from (posts - from) (Ok tt) }
{
    for i in from..posts {
        if !is_allowed(i64::from(heights.at(i)), voids) {
            return Err(Refusal::Height(i));
        }
    }
    Ok(())
}

// The first height or void that may not be held: part by part, and one by one from a part that has such a height.
fn judge_heights<H: Heights>(heights: H, voids: bool, posts: usize) -> Result<(), Refusal>
    requires { count_of (H.given heights) ≡ posts }
    ensures { result ≡ heights_then voids (H.given heights) posts (Ok tt) }
{
    for from in (0..posts).step_by(MOST) {
        if !are_allowed(heights, voids, from, MOST.min(posts - from)) {
            return judge_one_by_one(heights, voids, from, posts);
        }
    }
    Ok(())
}

// So many posts are due, each one that may be held, and room for so many bytes.
pub fn judge_posts<H: Heights>(
    heights: H,
    voids: bool,
    posts: usize,
    due: usize,
    room: usize,
) -> Result<(), Refusal>
    ensures { result ≡ judged_posts posts due voids (H.given heights) room }
{
    if !heights.count_is(posts) {
        return Err(Refusal::GridLength(posts));
    }
    judge_heights(heights, voids, posts)?;
    judge_room(due, room)
}
