//! Tests of types: expressions, statements and programs with their types or their first fault.
#![tactic(auto)]

#[cfg(test)]
mod expression_types;
#[cfg(test)]
mod program_types;
