//! The text of a trace.
#![tactic(auto)]

mod writing;

pub use writing::{write_event, write_trace};

#[cfg(test)]
mod tests;
