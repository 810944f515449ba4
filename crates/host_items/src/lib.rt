// The description of a cell as a C host gives and gets it: thirteen numbers.
#![tactic(auto)]

pub mod items;
pub mod numbers;
