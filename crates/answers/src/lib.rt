// What the library's calls answer: refusals with their places, and what they find where they refuse nothing.
#![tactic(auto)]

ghost use Rattle.std.specs.Prelude.{◌≡◌};
ghost use Rattle.answers.specs.Told.{numbered, refused};

use posts::Post;

// Why a call was refused, with its place: an offset in the file, a length, an item or an index.
#[derive(Clone, Copy)]
pub enum Refusal {
    // fewer bytes than the headers: the length
    Short(usize),
    // a column is not there whole: its offset
    Cut(usize),
    // a preamble field is wrong: its offset
    Preamble(usize),
    // the checksum differs: its offset
    Checksum(usize),
    // a post word is not allowed: its offset
    Word(usize),
    // bytes after the last column: the cell length due
    Surplus(usize),
    // an index or a position off the grid
    OffGrid,
    // a description item out of range: its number
    Item(usize),
    // the grid's length differs: the posts due
    GridLength(usize),
    // a height or void not allowed: its index in the grid, 0 for an edit
    Height(usize),
    // the output is too short: the length due
    Room(usize),
    // a rule year that there is not: the year as it was named
    Year(usize),
    // a header field has bytes that no accepted header has there: the offset of the first wrong one
    FieldImpossible(usize),
    // a header field goes against another field: as above
    FieldContradicts(usize),
    // an interval or a count goes against the level and zone table: as above
    FieldOffTable(usize),
}

// What intake finds, whole or step by step, where it refuses nothing.
#[derive(Clone, Copy)]
pub enum Verdict {
    // good so far, the next piece is due
    More,
    Accepted {
        level: usize,
        columns: usize,
        posts: usize,
    },
}

// What a lookup of a position finds: the nearest post, and what it reads as.
#[derive(Clone, Copy)]
pub struct Located {
    pub column: usize,
    pub post: usize,
    pub reads: Post,
}

// A refusal's number and its place. Kept: numbers, since a C host and a printed line have them so.
#[derive(Clone, Copy)]
pub struct Numbered(pub usize, pub usize);

// The number and the place of a refusal.
pub fn number(refusal: Refusal) -> Numbered
    ensures { refused result.0 result.1 ≡ numbered refusal }
{
    match refusal {
        Refusal::Short(length) => Numbered(1, length),
        Refusal::Cut(at) => Numbered(3, at),
        Refusal::Preamble(at) => Numbered(4, at),
        Refusal::Checksum(at) => Numbered(5, at),
        Refusal::Word(at) => Numbered(6, at),
        Refusal::Surplus(due) => Numbered(7, due),
        Refusal::OffGrid => Numbered(8, 0),
        Refusal::Item(item) => Numbered(9, item),
        Refusal::GridLength(due) => Numbered(10, due),
        Refusal::Height(index) => Numbered(11, index),
        Refusal::Room(due) => Numbered(12, due),
        Refusal::Year(named) => Numbered(17, named),
        Refusal::FieldImpossible(at) => Numbered(21, at),
        Refusal::FieldContradicts(at) => Numbered(22, at),
        Refusal::FieldOffTable(at) => Numbered(23, at),
    }
}
