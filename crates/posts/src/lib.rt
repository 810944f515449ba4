// Posts: what a post word means, and which words and heights a cell may hold. No other crate knows the words.
#![tactic(auto)]

pub mod heights;
pub mod parts;
pub mod spans;
pub mod words;

// What one post says.
// Kept: an enum of its own and no Option, as the scope has it (K6).
#[derive(Clone, Copy)]
pub enum Post {
    Height(i16),
    Void,
}
