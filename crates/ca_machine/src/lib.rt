//! The machine: one shared state, and one private state a thread.
#![tactic(auto)]

mod choices;
mod coming;
mod endings;
mod machine;
mod runner;
mod steps;
mod waits;

pub use choices::{Choice, Fresh, StepNo};
pub use machine::Machine;
pub use steps::FollowNo;
pub use waits::Waits;
