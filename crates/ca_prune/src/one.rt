//! Whether going back can help at one site.

ghost use Rattle.std.specs.Prelude.{◌≡◌, ◌<◌, ◌↔◌, ℕ, IsTrue, Contains};
ghost use Rattle.ca_tree.specs.declared.numbers.ItemId.{ItemId as AnItem};
ghost use Rattle.ca_model.specs.declared.tree.Item.{Item};
ghost use Rattle.ca_model.specs.Accesses.{Site};
ghost use Rattle.ca_model.specs.Destroying.{is_lock};
ghost use Rattle.ca_model.specs.Plans.{IsItem, IsSite};
ghost use Rattle.ca_flow.specs.Changes.{kind_of_act};
ghost use Rattle.ca_prune.specs.Pruning.{Tells, AreBefore, HasAmong, act_changes};

use crate::reasons::{item_of, reason};
use ca_flow::{Code, ItemKind, Points, Reason};
use ca_tree::{ItemId, SiteId};

// What an item does.
fn kind_of(code: &Code, item: ItemId) -> ItemKind
    requires { item.0 < 4294967296 → (x : Item) × IsItem code.now.source x item }
    ensures kind { (x : Item) → IsItem code.now.source x item → result ≡ kind_of_act x.act }
    ensures number { item.0 < 4294967296 }
{
    code.kind_of(item)
}

// Whether one of some items is a lock.
fn has_lock(code: &Code, items: &[ItemId]) -> bool
    requires { (i : AnItem) → i.0 < 4294967296 → Contains items.now i → (x : Item) × IsItem code.now.source x i }
    ensures { IsTrue result ↔ HasAmong code.now.source items.now is_lock }
{
    'items: for item in items {
        if kind_of(code, *item).is_lock {
            return true;
        }
    }
    false
}

// Whether one of some items reads what is shared or allocates.
fn has_change(code: &Code, items: &[ItemId]) -> bool
    requires { (i : AnItem) → i.0 < 4294967296 → Contains items.now i → (x : Item) × IsItem code.now.source x i }
    ensures { IsTrue result ↔ HasAmong code.now.source items.now act_changes }
{
    'items: for item in items {
        if kind_of(code, *item).can_change {
            return true;
        }
    }
    false
}

/// Why going back can't help at a site, if it can't: at a lock, that no lock stands before it; at any other site, that
/// nothing before it reads what is shared or allocates, nor anything earlier in its own item. The points are those of the
/// site. It takes no memory, and time in the items before the site.
pub fn is_hopeless(code: &Code, points: &Points, site: SiteId) -> Option<Reason>
    requires site { (s : Site) × IsSite code.now.source s site }
    requires items { (i : AnItem) → i.0 < 4294967296 → Contains points.now.items i → (x : Item) × IsItem code.now.source x i }
    ensures { (depth : ℕ) (s : Site) → IsSite code.now.source s site → AreBefore code.now.source depth s.item points.now.items → Tells code.now.source depth s result }
{
    let before = points.items.as_slice();
    let lock_before = has_lock(code, before);
    let change_before = has_change(code, before);
    reason(code, site, item_of(code, site), lock_before, change_before)
}
