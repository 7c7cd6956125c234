//! Tests of sites and regions over sources, worked by hand.
#![tactic(auto)]

#[cfg(test)]
mod in_code;
#[cfg(test)]
mod kinds;
#[cfg(test)]
mod regions;
#[cfg(test)]
mod sites;
#[cfg(test)]
mod sources;
