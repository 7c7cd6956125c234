//! What a plan says of a source.

ghost use Rattle.std.specs.Prelude.{◌≡◌};
ghost use Rattle.ca_model.specs.SourceRuns.{no_plan};

use crate::lists::{FunList, ItemList, SiteList};
use ca_tree::listed::Listed;
use std::alloc::Global;

/// Where a hardened source saves, where it may retry, and what it gives back.
#[derive(Debug, PartialEq, Drop)]
pub struct Plan {
    /// How often an activation may retry at one site.
    pub limit: u32,
    /// The items with a save after them.
    pub saves_after: ItemList,
    /// The functions with a save at their entry.
    pub saves_at_entry: FunList,
    /// The sites at which a thread may retry.
    pub sites: SiteList,
    /// The items whose locks and blocks a retry gives back.
    pub acquires: ItemList,
}

impl Plan {
    /// The plan without a save. It takes no memory.
    pub fn empty(alloc: Global) -> Plan
        ensures { result ≡ no_plan }
    {
        Plan {
            limit: 0,
            saves_after: Listed::from_vec(Vec::new(alloc)),
            saves_at_entry: Listed::from_vec(Vec::new(alloc)),
            sites: Listed::from_vec(Vec::new(alloc)),
            acquires: Listed::from_vec(Vec::new(alloc)),
        }
    }
}
