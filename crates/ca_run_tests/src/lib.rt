//! Tests of the command over worked sources.
#![tactic(auto)]

#[cfg(test)]
mod calls;
#[cfg(test)]
mod erasing;
#[cfg(test)]
mod tests;
