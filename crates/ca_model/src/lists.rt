//! Lists that contracts see as lists.

use crate::tree::Exp;
use crate::values::{Event, Given};
use ca_tree::listed::Listed;
use ca_tree::{FunId, ItemId, SiteId};

/// The entries of a trace, in order.
pub type Events = Listed<Event>;

/// Things that a retry gives back, the latest first.
pub type Gives = Listed<Given>;

/// Arguments, from left to right.
pub type Exps = Listed<Exp>;

/// Numbers of threads.
pub type Numbers = Listed<u32>;

/// Items, in ascending order in a plan.
pub type ItemList = Listed<ItemId>;

/// Functions, in ascending order in a plan.
pub type FunList = Listed<FunId>;

/// Sites, in ascending order in a plan.
pub type SiteList = Listed<SiteId>;
