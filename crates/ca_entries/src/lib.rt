//! The entry that comes for a thread, by what it stands at and what the shared state has.
#![tactic(auto)]

mod entries;
mod rollback;

pub use entries::{Parts, comes, entry, times_out};
pub use rollback::gives;

#[cfg(test)]
mod tests;
