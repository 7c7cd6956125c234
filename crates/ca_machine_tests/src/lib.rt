//! Tests of the machine and of its report, over worked sources and small ones.
#![tactic(auto)]

#[cfg(test)]
mod choices;
#[cfg(test)]
mod opened;
#[cfg(test)]
mod reports;
#[cfg(test)]
mod runs;
#[cfg(test)]
mod threads;
#[cfg(test)]
mod waiting;
