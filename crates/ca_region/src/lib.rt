//! The search of what stands before an item in its function.
#![tactic(auto)]

mod back;
mod in_code;

pub use back::region;
pub use ca_flow::Region;
pub use in_code::region_in;
