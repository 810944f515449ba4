// Parts of a column: the sum of their bytes, and whether a cell may hold all of their words, in one pass that no word ends.
ghost use Rattle.std.specs.Prelude.{◌≡◌, ◌*◌, ◌≤◌, take, drop};
ghost use Rattle.octets.specs.Sums.{sum_of};
ghost use Rattle.posts.specs.Asked.{FewWords};
ghost use Rattle.posts.specs.Parts.{turn_by, deepest_turned, extremes_allowed};
ghost use Rattle.posts.specs.Words.{words_allowed};

use octets::choices::both;
use octets::extremes::larger;
use octets::numbers::{low_first, swapped};
use octets::sums::bytes_of;
use octets::twos::number_of;

// How many words a part has at most: 16 bits hold the sum of their high bytes, and that of their low bytes.
pub const MOST: usize = 256;

// What a part of a column, or all of it, sums up to, and whether each of its words is allowed.
// Kept: the sum stands beside the test and in no Option, since the checksum is judged before the words are, allowed or not.
#[derive(Clone, Copy)]
pub struct Measured {
    pub sum: u32,
    pub allowed: bool,
}

// What is added to a word, in 16 bits, so that depths come to lie above 0 in their order, and void below all where it is allowed.
fn turn_for(voids: bool) -> u16
    ensures { result ≡ turn_by voids }
{
    if voids { 0x8001 } else { 0x8000 }
}

// Where the deepest word that is allowed comes to lie.
fn deepest_for(voids: bool) -> i16
    ensures { result ≡ deepest_turned voids }
{
    if voids { 12001 } else { 12000 }
}

// The highest of the words and of the turned ones, as two's complement numbers, tell whether each word is allowed.
fn are_allowed(highest: i16, deepest: i16, voids: bool) -> bool
    ensures { result ≡ extremes_allowed voids highest deepest }
{
    both(highest <= 9000, deepest <= deepest_for(voids))
}

// At most MOST words from `at` on; where a call names MOST, the loop has a known length. Bytes are summed as they were read: a sum does not
// mind their order.
pub fn measure_part(s: &[u8], at: usize, n: usize, voids: bool) -> Measured
    requires { FewWords s.now at n }
    ensures summed { (result.sum ≡ sum_of (take (2 * n) (drop at s.now))) × (result.sum ≤ 510 * n) }
    ensures allowed { result.allowed ≡ words_allowed voids s.now at n }
{
    let turn = turn_for(voids);
    let mut highest = i16::MIN;
    let mut deepest = i16::MIN;
    let mut words: u16 = 0;
    let mut highs: u16 = 0;
    for i in 0..n {
        let read = low_first(s, at + 2 * i);
        let word = swapped(read);
        highest = larger(highest, number_of(word));
        deepest = larger(deepest, number_of(word.wrapping_add(turn)));
        words = words.wrapping_add(read);
        highs += read / 256;
    }
    Measured {
        sum: bytes_of(words, highs),
        allowed: are_allowed(highest, deepest, voids),
    }
}
