//! Sites at which going back can't help: no lock stands before a lock, or nothing before another site reads what is shared
//! or allocates.
#![tactic(auto)]

mod all;
mod one;
mod reasons;

pub use all::hopeless_sites;
pub use ca_flow::Reason;
pub use one::is_hopeless;
