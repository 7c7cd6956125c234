//! Which items of a source have a marked item before them.
#![tactic(auto)]

mod before;
mod layers;
mod onward;

pub use before::stands_before;
