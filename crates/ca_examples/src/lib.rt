//! Worked examples of the definitions that no test of the program shows: the points of a loop, and small cases that compute.
#![tactic(auto)]

mod loop_points;
mod small_cases;

pub use loop_points::the_loop_has_two_points;
pub use small_cases::small_cases_compute;
