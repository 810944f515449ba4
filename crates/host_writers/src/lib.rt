// The writers for a C host: a cell from items as numbers, or one column, with heights in bytes.
#![tactic(auto)]

pub mod cell;
pub mod column;
