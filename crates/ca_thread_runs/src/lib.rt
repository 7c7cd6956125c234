//! Threads by themselves, with the code of whole sources: a crate of tests alone.
#![tactic(auto)]

mod run;

pub use run::{Run, code_of};

#[cfg(test)]
mod size_tests;
#[cfg(test)]
mod sources;
#[cfg(test)]
mod table;
#[cfg(test)]
mod tests;
