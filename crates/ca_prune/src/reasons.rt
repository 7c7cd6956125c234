//! Why going back can't help at a site, by what stands before its item.

ghost use Rattle.std.specs.Prelude.{◌≡◌, ◌↔◌, ℕ, IsTrue, Some, None, if◌then◌else◌};
ghost use Rattle.ca_model.specs.Accesses.{Site};
ghost use Rattle.ca_model.specs.Destroying.{is_lock};
ghost use Rattle.ca_model.specs.Plans.{IsSite};
ghost use Rattle.ca_model.specs.WellFormed.{IsWellFormed};
ghost use Rattle.ca_model.specs.Bounds.{IsBounded};
ghost use Rattle.ca_prune.specs.Pruning.{Tells, HasBefore, act_changes};

use ca_flow::{Code, Reason};
use ca_tree::{ItemId, SiteId};

/// The item of a site.
pub(crate) fn item_of(code: &Code, site: SiteId) -> ItemId
    requires { (s : Site) × IsSite code.now.source s site }
    ensures item { (s : Site) → IsSite code.now.source s site → s.item.id ≡ result }
    ensures formed { IsWellFormed code.now.source × IsBounded code.now.source }
{
    let (function, node) = code.site_at(site);
    code.graph(function).steps()[node.0 as usize].node.item
}

// A reason, unless going back can help.
fn unless(helps: bool, reason: Reason) -> Option<Reason>
    ensures { result ≡ (if helps then None else Some reason) }
{
    if helps { None } else { Some(reason) }
}

/// Why going back can't help at a site of an item, if it can't, where it is known whether a lock stands before the item, and
/// whether something does that reads what is shared or allocates.
pub(crate) fn reason(
    code: &Code,
    site: SiteId,
    item: ItemId,
    lock_before: bool,
    change_before: bool,
) -> Option<Reason>
    requires site { (s : Site) × IsSite code.now.source s site × (s.item.id ≡ item) }
    requires formed { IsWellFormed code.now.source }
    ensures { (depth : ℕ) (s : Site) → IsSite code.now.source s site → IsTrue lock_before ↔ HasBefore code.now.source depth s.item is_lock → IsTrue change_before ↔ HasBefore code.now.source depth s.item act_changes → Tells code.now.source depth s result }
{
    if code.kind_of(item).is_lock {
        return unless(lock_before, Reason::Lock);
    }
    if change_before {
        return None;
    }
    let earlier = code.changes_before(site);
    unless(earlier, Reason::Local)
}
