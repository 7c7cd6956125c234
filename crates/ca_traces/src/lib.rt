//! The reading of a text of a trace.
#![tactic(auto)]

mod acts;
mod laws;
mod lists;
mod numbers;
mod reading;

pub use laws::{a_text_has_one_reading, what_is_written_is_read};
pub use reading::{TraceNo, read_trace};

#[cfg(test)]
mod tests;
