//! Whether going back can help, at all sites at once.

ghost use Rattle.std.specs.Prelude.{◌≡◌, ◌≤◌, ◌+◌, ◌↔◌, ℕ, IsTrue, IfOk, None, length, get_or};
ghost use Rattle.ca_reach.specs.Reach.{IsSet};
ghost use Rattle.ca_model.specs.Accesses.{Site, all_sites};
ghost use Rattle.ca_model.specs.Plans.{IsSite};
ghost use Rattle.ca_prune.specs.Pruning.{Tells, AreBehind, by_number};

use crate::reasons::{item_of, reason};
use ca_ahead::stands_before;
use ca_flow::{Code, ItemKind, Reason};
use ca_tree::{NoMemory, SiteId};
use std::alloc::Global;

// Whether a number is set.
fn is_set(flags: &[bool], n: u32) -> bool
    ensures { IsTrue result ↔ IsSet flags.now n }
{
    match flags.get(n as usize) {
        None => false,
        Some(b) => *b,
    }
}

// Which items are locks, by their numbers.
fn lock_flags(alloc: Global, kinds: &[ItemKind]) -> Result<Vec<bool>, NoMemory>
    ensures { IfOk result (λ flags. flags.items ≡ by_number (λ k. k.is_lock) kinds.now) }
{
    let mut flags = Vec::new(alloc);
    flags.push(false)?;
    'kinds: for kind in kinds {
        flags.push(kind.is_lock)?;
    }
    Ok(flags)
}

// Which items read what is shared or allocate, by their numbers.
fn change_flags(alloc: Global, kinds: &[ItemKind]) -> Result<Vec<bool>, NoMemory>
    ensures { IfOk result (λ flags. flags.items ≡ by_number (λ k. k.can_change) kinds.now) }
{
    let mut flags = Vec::new(alloc);
    flags.push(false)?;
    'kinds: for kind in kinds {
        flags.push(kind.can_change)?;
    }
    Ok(flags)
}

// Which items have a lock before them.
fn behind_locks(alloc: Global, code: &Code, depth: u32) -> Result<Vec<bool>, NoMemory>
    requires { depth ≤ 8 }
    ensures { IfOk result (λ flags. AreBehind code.now.source depth (λ k. k.is_lock) flags.items) }
{
    let marked = lock_flags(alloc, code.kinds())?;
    stands_before(alloc, code, &marked, depth)
}

// Which items have one before them that reads what is shared or allocates.
fn behind_changes(alloc: Global, code: &Code, depth: u32) -> Result<Vec<bool>, NoMemory>
    requires { depth ≤ 8 }
    ensures { IfOk result (λ flags. AreBehind code.now.source depth (λ k. k.can_change) flags.items) }
{
    let marked = change_flags(alloc, code.kinds())?;
    stands_before(alloc, code, &marked, depth)
}

// The reason at a site, by the flags of items.
fn reason_at(code: &Code, site: SiteId, locks: &[bool], changes: &[bool]) -> Option<Reason>
    requires { (s : Site) × IsSite code.now.source s site }
    ensures { (depth : ℕ) (s : Site) → IsSite code.now.source s site → AreBehind code.now.source depth (λ k. k.is_lock) locks.now → AreBehind code.now.source depth (λ k. k.can_change) changes.now → Tells code.now.source depth s result }
{
    let item = item_of(code, site);
    let lock_before = is_set(locks, item.0);
    let change_before = is_set(changes, item.0);
    reason(code, site, item, lock_before, change_before)
}

/// For each site in order, why going back over at most so many calls can't help at it, if it can't, as `is_hopeless` answers.
/// The only error is want of memory. It takes time in the items, the links between them and the calls, once for each depth.
pub fn hopeless_sites(
    alloc: Global,
    code: &Code,
    depth: u32,
) -> Result<Vec<Option<Reason>>, NoMemory>
    requires { depth ≤ 8 }
    ensures count { IfOk result (λ rs. length rs.items ≡ length (all_sites code.now.source)) }
    ensures exact { IfOk result (λ rs. (k : ℕ) (s : Site) → IsSite code.now.source s (record { 0 = k + 1 }) → Tells code.now.source depth s (get_or rs.items k None)) }
{
    let locks = behind_locks(alloc, code, depth)?;
    let changes = behind_changes(alloc, code, depth)?;
    let mut reasons = Vec::new(alloc);
    'sites: for k in 0..code.sites() {
        reasons.push(reason_at(code, SiteId(k + 1), &locks, &changes))?;
    }
    Ok(reasons)
}
