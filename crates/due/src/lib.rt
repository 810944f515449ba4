// What is due in a field of the headers, as bytes: the judge compares with it, and the writer puts it.
// Inside, a latitude is counted in whole degrees from 90 S and a longitude from 180 W, so that both are unsigned.
#![tactic(auto)]

use layout::{Bytes, Grid, Interval};

pub mod compare;
pub mod due_angles;
pub mod numbers;
pub mod put;
pub mod texts;

// What level, origin and security letter are: by these the other fields are due.
#[derive(Clone, Copy)]
pub struct Basis {
    pub grid: Grid,
    pub latitude: usize,
    pub longitude: usize,
    pub letter: u8,
}

// Where nothing is known: no grid, and the first origin of all, 90 S 180 W.
pub const NOTHING: Basis = Basis {
    grid: Grid {
        level: 0,
        factor: 0,
        interval: Interval {
            latitude: 0,
            longitude: 0,
        },
        columns: 0,
        posts: 0,
        bytes: Bytes { column: 0, cell: 0 },
    },
    latitude: 0,
    longitude: 0,
    letter: 0,
};
