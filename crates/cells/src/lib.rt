// The cells of an image: their layout, the check of one cell, the walk over the functions, and the answers of a check.
#![tactic(auto)]

pub mod buffer;
pub mod check;
pub mod read;
pub mod refusal;
pub mod table;
pub mod walk;
