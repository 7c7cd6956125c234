//! What stands before items of a source through callers, and the points where backward paths stop.
#![tactic(auto)]

mod callers;
mod search;
mod tables;

pub use ca_flow::Points;
pub use callers::{Callers, points_of};
