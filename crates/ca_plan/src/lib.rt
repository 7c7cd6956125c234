//! The plan of a source under options: where it saves, at which sites it may retry, and what it gives back; and the table of
//! its sites.
#![tactic(auto)]

mod acquiring;
mod finder;
mod heads;
mod laws;
mod lines;
mod named;
mod names;
mod options;
mod places;
mod planning;
mod points;
mod state;
mod table;
mod taken;

pub use laws::{a_source_has_one_plan, a_source_has_one_site_table};
pub use options::{PlanNo, PlanOptions};
pub use planning::plan;
pub use table::site_table;
