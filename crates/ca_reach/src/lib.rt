//! Which numbers are reached from some starts along the rows of a table: the search that stands under all searches over
//! items.
#![tactic(auto)]

mod rows;
mod search;

pub use rows::{add, empty_rows, items_at, put};
pub use search::{reached, row};

#[cfg(test)]
mod tests;
