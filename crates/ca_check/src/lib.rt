//! The checker of a list of entries against a source and a plan, and the projection and the lifted list of a run.
#![tactic(auto)]

mod checking;
mod laws;
mod lifting;
mod projecting;

pub use checking::{CheckNo, check};
pub use laws::{a_list_has_one_lift, a_list_has_one_projection, a_list_has_one_verdict};
pub use lifting::{LiftNo, lift};
pub use projecting::project;
