//! Tests of what is made of typed sources: whole typed trees, plans that fit, graphs, openings.
#![tactic(auto)]

#[cfg(test)]
mod graphs;
#[cfg(test)]
mod openings;
#[cfg(test)]
mod plans;
#[cfg(test)]
mod sizes;
#[cfg(test)]
mod typed_trees;
#[cfg(test)]
mod values;
