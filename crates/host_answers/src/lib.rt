// Answers packed for a C host: one number of 64 bits each.
#![tactic(auto)]

ghost use Rattle.std.specs.Prelude.{◌≡◌};
ghost use Rattle.answers.specs.Told as told;
ghost use Rattle.host_answers.specs.Packed as by;

use answers::{Located, Refusal, Verdict};
use posts::Post;

// Void's number, in the 16 bits of a height.
const VOID: i16 = posts::heights::VOID as i16;

// What an answer that is no refusal holds; 0 is nothing. Kept: numbers, since include/dted.h has them for C.
const A_GRID: usize = 1;

const A_HEIGHT: usize = 2;

const A_POSITION: usize = 3;

// The 16 bits of a height.
fn bits(height: i16) -> usize
    ensures { result ≡ by.bits height }
{
    usize::from(height.cast_unsigned())
}

// The 16 bits of what a post reads as: those of void's number where it is void.
fn post_bits(post: Post) -> usize
    ensures { result ≡ by.post_bits post }
{
    match post {
        Post::Height(metres) => bits(metres),
        Post::Void => bits(VOID),
    }
}

// What an answer holds, and three values of 16 bits, the first one highest.
fn holding(what: usize, a: usize, b: usize, c: usize) -> u64
    ensures { result ≡ by.holding what a b c }
{
    (what % 0x100 * 0x1000000000000
        + a % 0x10000 * 0x100000000
        + b % 0x10000 * 0x10000
        + c % 0x10000) as u64
}

// A level, columns, and posts to a column.
#[tactic(auto, unfolding(crate::specs::Packed::packed))]
pub fn grid(level: usize, columns: usize, posts: usize) -> u64
    ensures { result ≡ by.packed (told.accepted level columns posts) }
{
    holding(A_GRID, level, columns, posts)
}

// A refusal's number above its place.
#[tactic(auto, unfolding(crate::specs::Packed::packed))]
pub fn refusal(refusal: Refusal) -> u64
    ensures { result ≡ by.packed (told.numbered refusal) }
{
    let told = answers::number(refusal);
    (told.0 % 0x100 * 0x100000000000000 + told.1 % 0x100000000000000) as u64
}

// Kept: a function for each kind of answer, since `told` says each kind by its own values, and a call names its kind; they share `refusal` and `holding`.
#[tactic(auto, unfolding(crate::specs::Packed::packed))]
pub fn verdict(verdict: Result<Verdict, Refusal>) -> u64
    ensures { result ≡ by.packed (told.told told.intake verdict) }
{
    match verdict {
        Ok(Verdict::More) => 0,
        Ok(
            Verdict::Accepted {
                level,
                columns,
                posts,
            },
        ) => grid(level, columns, posts),
        Err(why) => refusal(why),
    }
}

#[tactic(auto, using(crate::proofs::PostBits::packed_post))]
pub fn reading(reading: Result<Post, Refusal>) -> u64
    ensures { result ≡ by.packed (told.told told.post reading) }
{
    match reading {
        Ok(post) => holding(A_HEIGHT, 0, 0, post_bits(post)),
        Err(why) => refusal(why),
    }
}

#[tactic(auto, using(crate::proofs::PostBits::packed_post_at))]
pub fn located(located: Result<Located, Refusal>) -> u64
    ensures { result ≡ by.packed (told.told told.position located) }
{
    match located {
        Ok(found) => holding(A_POSITION, found.column, found.post, post_bits(found.reads)),
        Err(why) => refusal(why),
    }
}

#[tactic(auto, unfolding(crate::specs::Packed::packed))]
pub fn outcome(outcome: Result<(), Refusal>) -> u64
    ensures { result ≡ by.packed (told.told told.act outcome) }
{
    match outcome {
        Ok(()) => 0,
        Err(why) => refusal(why),
    }
}
