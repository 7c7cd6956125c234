//! What searches over graphs answer.

use ca_model::{FunList, ItemList};

/// What stands before an item in its function: the items on the backward paths from it, the items behind which these paths
/// stop, and whether one of them reaches the entry.
#[derive(Debug, PartialEq, Drop)]
pub struct Region {
    pub items: ItemList,
    pub after: ItemList,
    pub reaches_entry: bool,
}

/// What stands before a site, and its points: the items behind which backward paths stop, and the functions at whose entry
/// they do.
#[derive(Debug, PartialEq, Drop)]
pub struct Points {
    pub items: ItemList,
    pub after: ItemList,
    pub entries: FunList,
}

/// Why going back can't help at a site: no shared read and no `malloc` stands before it, or no lock.
#[derive(Clone, Copy, Debug, PartialEq, Eq)]
pub enum Reason {
    Local,
    Lock,
}
