//! Lowering of typed sources to graphs.
#![tactic(auto)]

mod acts;
mod builder;
mod expressions;
mod functions;
mod lowering;
mod scopes;
mod statements;

pub use lowering::lower;
