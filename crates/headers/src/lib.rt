// Headers: the 3,428 bytes before the first column, judged field by field in the order of the table.
#![tactic(auto)]

use layout::Grid;

pub mod judge;
pub mod readings;
pub mod rows;

// What the rest of the library needs of good headers. Angles are counted as in `angles`.
#[derive(Clone, Copy)]
pub struct Facts {
    pub grid: Grid,
    pub latitude: usize,
    pub longitude: usize,
    pub partial: usize,
}
