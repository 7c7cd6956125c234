//! The state that all threads share, as the effects of a trace.
#![tactic(auto)]

mod checks;
mod effects;
mod laws;
mod phase;
mod refusals;
mod shared;
mod threads;

pub use laws::{an_entry_is_legal_where_nothing_refuses_it, legal_entries_keep_numbers};
pub use phase::Phase;
pub use refusals::{AppendNo, Illegal};
pub use shared::{Shared, shared_states_cross_threads};

#[cfg(test)]
mod tests;
