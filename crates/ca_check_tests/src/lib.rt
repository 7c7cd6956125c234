//! Tests of the checker, of projections and of lifted lists over texts of traces.
#![tactic(auto)]

#[cfg(test)]
mod lists;
#[cfg(test)]
mod tests;
