// The description of a cell: the thirteen items that its headers say, read from them and ranged, and what they make due.
#![tactic(auto)]

pub mod describe;
pub mod facts;
pub mod items;

// An accuracy in metres, or not available. Kept: an enum of its own and no Option, as the scope has it (K6).
#[derive(Clone, Copy)]
pub enum Accuracy {
    Metres(u16),
    Unknown,
}

#[derive(Clone, Copy)]
pub struct Accuracies {
    pub horizontal: Accuracy,
    pub vertical: Accuracy,
}

// The vertical datum.
#[derive(Clone, Copy)]
pub enum Datum {
    Msl,
    E96,
}

// The thirteen items of a cell: what its headers say beyond what is fixed. Angles are counted as in `angles`.
#[derive(Clone, Copy)]
pub struct Description {
    pub level: usize,
    pub latitude: usize,
    pub longitude: usize,
    pub security: u8,
    pub edition: usize,
    pub version: u8,
    pub datum: Datum,
    pub uhl: Accuracy,
    pub absolute: Accuracies,
    pub relative: Accuracies,
    pub partial: usize,
}
