//! Tests of what stands before items and sites through callers, and of sites at which going back can't help, worked by hand.
#![tactic(auto)]

#[cfg(test)]
mod ahead;
#[cfg(test)]
mod code;
#[cfg(test)]
mod hopeless;
#[cfg(test)]
mod sites;
#[cfg(test)]
mod sources;
