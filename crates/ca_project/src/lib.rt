//! Projection: a list of entries without its abandoned attempts.
#![tactic(auto)]

mod projecting;

pub use projecting::projection;
