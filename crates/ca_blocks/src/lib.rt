//! Locals, blocks and statements: their typed trees, and exactly their faults.
#![tactic(auto)]

mod inside;
mod locals;
pub mod statements;

pub use inside::Inside;
