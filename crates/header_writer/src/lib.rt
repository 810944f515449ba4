// The header writer: the fields of a description over the free bytes, as the writers put them.
#![tactic(auto)]

mod put;
pub mod write;
