//! What a plan is asked for, and why there is none.

use ca_model::Numbers;
use ca_tree::NoMemory;

/// What a plan is made by.
#[derive(Debug, PartialEq, Drop)]
pub struct PlanOptions {
    /// How often an activation may retry at one site: at most 10,000.
    pub limit: u32,
    /// Through how many calls paths go up: at most 8.
    pub depth: u32,
    /// The numbers of the only sites that may be taken, in any order; every site where there are none given.
    pub only: Option<Numbers>,
}

/// Why there is no plan.
#[derive(Clone, Copy, Debug, PartialEq, Eq)]
pub enum PlanNo {
    /// This is the first of the numbers named that is no site's.
    NoSuchSite { number: u32 },
    /// An allocation was refused. It may come at any source.
    NoMemory,
}

impl From<NoMemory> for PlanNo {
    ghost use Rattle.std.specs.Prelude.{◌≡◌};
    ghost use Rattle.ca_plan.specs.declared.options.PlanNo.{PlanNo};
    ghost use Rattle.ca_plan.specs.declared.options.PlanNo.TheVariants.{NoMemory};

    ghost from_gives = { λ x r. r ≡ NoMemory };

    fn from(_: NoMemory) -> Self {
        PlanNo::NoMemory
    }
}
