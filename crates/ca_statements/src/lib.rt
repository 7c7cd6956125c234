//! Readers of statements and of the locals that are declared among them.
#![tactic(auto)]

pub mod locals;
pub mod statements;
