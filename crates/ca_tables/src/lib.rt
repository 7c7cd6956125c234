//! Tables of a source with its plan: the numbers of the sites of each item, and what the plan names.
#![tactic(auto)]

mod counts;
mod tables;

pub use tables::Tables;
