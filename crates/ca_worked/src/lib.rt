//! What texts are read and typed as, and typed expressions in words: for tests that compare them. The tests here are
//! those of reading.
#![tactic(auto)]

mod readings;
mod words;

pub use readings::{read_expression, read_program, repeated, typing};
pub use words::{place_shown, shown};

#[cfg(test)]
mod expression_tests;
#[cfg(test)]
mod program_tests;
