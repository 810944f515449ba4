// What each field of the headers must hold: an item's field by itself, any other by what is due there.
#![tactic(auto)]

pub mod items;
pub mod kinds;
pub mod letters;
