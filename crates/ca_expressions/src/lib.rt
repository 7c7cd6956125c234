//! Readers of expressions: what a token tells, what it exceeds, why a reader stops, and recursive descent over the rest of
//! the tokens.
#![tactic(auto)]

pub mod expressions;
pub mod limits;
pub mod names;
pub mod reserved;
pub mod steps;
pub mod stop;
