// A whole cell that is never held whole: each piece is written into one buffer and stepped through intake from there.
use answers::{Refusal, Verdict};
use steps::{ColumnsDue, Phase, Steps};

// The longest column, and its posts.
const PIECE: usize = 7214;

const POSTS: usize = 3601;

// Heights that differ from post to post and from column to column.
pub fn put_heights(heights: &mut [i16], column: usize) {
    let mut metres = column % 9001;
    for height in heights {
        *height = metres as i16;
        metres = (metres + 1) % 9001;
    }
}

// What stepwise intake answers after the headers and the columns of a zone I cell of a level; what the buffer holds past a column is dropped.
pub fn stream(level: usize, columns: usize, posts: usize) -> Result<Verdict, Refusal> {
    let mut buffer = [0u8; PIECE];
    let mut heights = [0i16; POSTS];
    crate::put_headers(&mut buffer, crate::description(level, 187, 0));
    let mut steps = Steps::new(crate::YEAR).step(&buffer).steps;
    for k in 0..columns {
        put_heights(&mut heights, k);
        if let Some(column) = heights.get(..posts) {
            let _ = column_writer::write(&mut buffer, level, k, column);
        }
        steps = steps.step(&buffer).steps;
    }
    steps.step(b"").answer
}

// What a state answers that no step made: columns are due of a level and an edge that there may not be.
pub fn from_made_up(level: usize, edge: usize) -> Result<Verdict, Refusal> {
    let steps = Steps {
        phase: Phase::Columns(ColumnsDue {
            level,
            edge,
            voids: false,
            next: 0,
        }),
    };
    steps.step(b"").answer
}
