// Writing one data column over lent bytes, its heights from any source.
ghost use Rattle.std.specs.Prelude.{◌≡◌};
ghost use Rattle.octets.specs.Numbers.{bytes_of_words};
ghost use Rattle.octets.specs.Pastes.{pasted};
ghost use Rattle.octets.specs.Sums.{sum_of};
ghost use Rattle.sources.specs.Heights.{height_words};
ghost use Rattle.columns.specs.Asked.{PartFits, WordsFit, PreambleFits, ColumnFits};
ghost use Rattle.columns.specs.Column.{preamble, column_of_words};

use crate::places::{sum_at, word_at};
use octets::numbers::{put16, put24, put32};
use octets::sums::{bytes_of, sum};
use posts::heights::word_of_short;
use posts::parts::MOST;
use sources::Heights;

// A part of a column, of as many words as heights from height `first` on, put from `at` on: the sum of their bytes.
// Kept: first and number beside the source, and no narrower source: where a call names MOST, the loop has a known length.
fn put_part<H: Heights>(out: &mut [u8], at: usize, heights: H, first: usize, n: usize) -> u32
    requires { PartFits out.old at (H.given heights) first n }
    ensures summed { result ≡ sum_of (bytes_of_words (height_words (H.given heights) first n)) }
    ensures lent { out.new ≡ pasted out.old at (bytes_of_words (height_words (H.given heights) first n)) }
{
    let mut words: u16 = 0;
    let mut highs: u16 = 0;
    for i in 0..n {
        let word = word_of_short(heights.at(first + i));
        put16(out, at + 2 * i, word);
        words = words.wrapping_add(word);
        highs += word / 256;
    }
    bytes_of(words, highs)
}

// The words of so many heights, from height `first` on, after the preamble: the sum of their bytes.
fn put_words<H: Heights>(out: &mut [u8], heights: H, first: usize, posts: usize) -> u32
    requires { WordsFit out.old (H.given heights) first posts }
    ensures summed { result ≡ sum_of (bytes_of_words (height_words (H.given heights) first posts)) }
    ensures lent { out.new ≡ pasted out.old 8 (bytes_of_words (height_words (H.given heights) first posts)) }
{
    let mut sum = 0;
    let parts = posts / MOST;
    for part in 0..parts {
        let i = part * MOST;
        sum += put_part(out, word_at(i), heights, first + i, MOST);
    }
    let i = parts * MOST;
    sum + put_part(out, word_at(i), heights, first + i, posts % MOST)
}

// Sentinel, block count, longitude count and latitude count.
fn put_preamble(out: &mut [u8], number: usize)
    requires { PreambleFits out.old number }
    ensures { out.new ≡ pasted out.old 0 (preamble number) }
{
    out[0] = 170;
    put24(out, 1, number as u32);
    put16(out, 4, number as u16);
    put16(out, 6, 0);
}

// Column `number` of so many heights, from height `first` on, over bytes of its length.
pub fn put_column<H: Heights>(out: &mut [u8], number: usize, heights: H, first: usize, posts: usize)
    requires { ColumnFits out.old number (H.given heights) first posts }
    ensures { out.new ≡ column_of_words number (height_words (H.given heights) first posts) }
{
    put_preamble(out, number);
    let before = sum(&out[..8]);
    let words = put_words(out, heights, first, posts);
    put32(out, sum_at(posts), before + words);
}
