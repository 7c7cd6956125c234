//! The one call that does what the program does.
#![tactic(auto)]

mod command;
mod fault_texts;
mod hardening;
mod names;
mod reading;
mod refusals;
mod run;
mod sites;
mod texts;
mod traced;

pub use command::command_alone;
pub use refusals::out_of_memory;

#[cfg(test)]
mod tests;
