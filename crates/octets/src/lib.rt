// Lent bytes: numbers high byte first, byte sums, decimal digits, fixed texts, and bytes put over bytes.
// Kept: offsets into a slice, and no part of it, since the definitions read and put at a place.
#![tactic(auto)]

pub mod choices;
pub mod digits;
pub mod extremes;
pub mod numbers;
pub mod pastes;
pub mod sums;
pub mod texts;
pub mod twos;
