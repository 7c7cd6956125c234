//! Tests of plans and of tables of sites, worked by hand.
#![tactic(auto)]

#[cfg(test)]
mod plans;
#[cfg(test)]
mod sources;
#[cfg(test)]
mod tables;
