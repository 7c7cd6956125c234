//! The items of a plan that acquire.

ghost use Rattle.std.specs.Prelude.{◌≡◌, ◌<◌, ℕ, IfOk, true, false, length, replicate, map, Contains};
ghost use Rattle.std.specs.List.Sorted.{IsStrictlyIncreasing};
ghost use Rattle.ca_tree.specs.declared.numbers.ItemId.{ItemId as AnItem};
ghost use Rattle.ca_model.specs.declared.tree.Act.{Act};
ghost use Rattle.ca_flow.specs.Changes.{kind_of_act};
ghost use Rattle.ca_model.specs.Destroying.{has_malloc};
ghost use Rattle.ca_model.specs.Plans.{can_acquire};
ghost use Rattle.ca_model.specs.WellFormed.{IsWellFormed};
ghost use Rattle.ca_model.specs.Bounds.{IsBounded};
ghost use Rattle.ca_plan.specs.Planning.{AreItems, IsAmong, Sets, AreAcquiring};

use ca_flow::{Code, ItemKind};
use ca_reach::{items_at, put};
use ca_tree::{ItemId, NoMemory};
use std::alloc::Global;

// Flags that are not set.
fn no_flags(alloc: Global, count: usize) -> Result<Vec<bool>, NoMemory>
    ensures { IfOk result (λ flags. flags.items ≡ replicate count false) }
{
    let flags = vec![in alloc; false; count]?;
    Ok(flags)
}

// Sets the flag of a number where a test is passed.
fn put_if(flags: &mut Vec<bool>, test: bool, n: u32)
    ensures length { length flags.new.items ≡ length flags.old.items }
    ensures sets { Sets flags.old.items flags.new.items (λ m. (test ≡ true) × (m ≡ n)) }
{
    if test {
        put(flags, n);
    }
}

// Whether an item is a lock or has a `malloc`.
fn is_acquiring(kind: ItemKind) -> bool
    ensures { (a : Act) → kind ≡ kind_of_act a → result ≡ can_acquire a }
{
    kind.is_lock || kind.has_malloc
}

// Sets the flags of the locks and of the items with a `malloc` among some.
fn put_acquiring(flags: &mut Vec<bool>, code: &Code, items: &[ItemId])
    requires { AreItems code.now.source items.now }
    ensures length { length flags.new.items ≡ length flags.old.items }
    ensures sets { Sets flags.old.items flags.new.items (IsAmong code.now.source items.now can_acquire) }
{
    'items: for item in items {
        let kind = code.kind_of(*item);
        put_if(flags, is_acquiring(kind), item.0);
    }
}

// Sets the flags of the items with a `malloc` among some.
fn put_allocating(flags: &mut Vec<bool>, code: &Code, items: &[ItemId])
    requires { AreItems code.now.source items.now }
    ensures length { length flags.new.items ≡ length flags.old.items }
    ensures sets { Sets flags.old.items flags.new.items (IsAmong code.now.source items.now has_malloc) }
{
    'items: for item in items {
        let kind = code.kind_of(*item);
        put_if(flags, kind.has_malloc, item.0);
    }
}

// The number of an item has 32 bits.
fn read_item(item: ItemId)
    ensures { item.0 < 4294967296 }
{
    let _number = item.0;
}

/// Items that are read have numbers of 32 bits.
pub(crate) fn read_items(items: &[ItemId])
    ensures { (i : AnItem) → Contains items.now i → i.0 < 4294967296 }
{
    'items: for item in items {
        read_item(*item);
    }
}

/// The locks and the items with a `malloc` among those before the sites, and those with a `malloc` among the items of the
/// sites.
pub(crate) fn acquiring(
    alloc: Global,
    code: &Code,
    before: &[ItemId],
    own: &[ItemId],
) -> Result<Vec<ItemId>, NoMemory>
    requires formed { IsWellFormed code.now.source }
    requires bounded { IsBounded code.now.source }
    requires before { AreItems code.now.source before.now }
    requires own { AreItems code.now.source own.now }
    ensures items { IfOk result (λ items. AreAcquiring code.now.source before.now own.now items.items) }
    ensures ascend { IfOk result (λ items. IsStrictlyIncreasing (map (λ i. i.0) items.items)) }
{
    let mut flags = no_flags(alloc, code.kinds().len() + 1)?;
    put_acquiring(&mut flags, code, before);
    put_allocating(&mut flags, code, own);
    let items = items_at(alloc, &flags, 0)?;
    read_items(&items);
    Ok(items)
}
