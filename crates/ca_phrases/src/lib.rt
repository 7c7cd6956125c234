//! Readers of what stands in a statement: types, declared names, arguments, right sides, calls of the library and simple
//! statements.
#![tactic(auto)]

pub mod calls;
pub mod library;
pub mod simple;
pub mod types;
