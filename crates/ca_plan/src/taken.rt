//! The sites that a plan takes, and their items.

ghost use Rattle.std.specs.Prelude.{◌≡◌, ◌≤◌, ◌+◌, ◌↔◌, ℕ, IfOk, IsTrue, None, Contains, map, get_or, length};
ghost use Rattle.std.specs.List.Sorted.{IsStrictlyIncreasing};
ghost use Rattle.ca_tree.specs.declared.numbers.ItemId.{ItemId as AnItem};
ghost use Rattle.ca_tree.specs.declared.numbers.SiteId.{SiteId as ASite};
ghost use Rattle.ca_model.specs.Accesses.{Site, all_sites};
ghost use Rattle.ca_model.specs.Plans.{IsSite, IsTaken};
ghost use Rattle.ca_model.specs.Codes.{Typed};
ghost use Rattle.ca_prune.specs.Pruning.{Tells};
ghost use Rattle.ca_plan.specs.Planning.{options_of, site, AreTaken, IsItemOfOne, MayPush};

use crate::named::is_named;
use crate::options::PlanOptions;
use ca_flow::{Code, Reason};
use ca_prune::hopeless_sites;
use ca_tree::{ItemId, NoMemory, SiteId};
use std::alloc::Global;

// Whether a site is taken, where it is known whether it is hopeless.
fn is_taken(options: &PlanOptions, reason: Option<Reason>, n: u32) -> bool
    ensures { (p : Typed) (s : Site) → IsSite p s (site n) → Tells p options.now.depth s reason → IsTrue result ↔ IsTaken p (options_of options.now) s (site n) }
{
    reason.is_none() && is_named(&options.only, n)
}

// Adds a site where a test is passed.
fn push_if(sites: &mut Vec<SiteId>, test: bool, site: SiteId) -> Result<(), NoMemory>
    ensures { IfOk result (λ u. MayPush test sites.old.items sites.new.items site) }
{
    if test {
        sites.push(site)?;
    }
    Ok(())
}

/// The sites that a plan takes: those that are not hopeless and that the options name.
pub(crate) fn taken(
    alloc: Global,
    code: &Code,
    options: &PlanOptions,
) -> Result<Vec<SiteId>, NoMemory>
    requires depth { options.now.depth ≤ 8 }
    ensures taken { IfOk result (λ sites. AreTaken code.now.source (options_of options.now) sites.items) }
    ensures ascend { IfOk result (λ sites. IsStrictlyIncreasing (map (λ s. s.0) sites.items)) }
{
    let reasons = hopeless_sites(alloc, code, options.depth)?;
    let mut sites = Vec::new(alloc);
    'sites: for k in 0..code.sites() {
        let taken = is_taken(options, reasons[k as usize], k + 1);
        push_if(&mut sites, taken, SiteId(k + 1))?;
    }
    Ok(sites)
}

// The item of a site.
fn item_of(code: &Code, site: SiteId) -> ItemId
    requires { (s : Site) × IsSite code.now.source s site }
    ensures { (s : Site) → IsSite code.now.source s site → s.item.id ≡ result }
{
    let (function, node) = code.site_at(site);
    code.graph(function).steps()[node.0 as usize].node.item
}

/// The items of some sites.
pub(crate) fn items_of(
    alloc: Global,
    code: &Code,
    sites: &[SiteId],
) -> Result<Vec<ItemId>, NoMemory>
    requires { (n : ASite) → Contains sites.now n → (s : Site) × IsSite code.now.source s n }
    ensures { IfOk result (λ items. (i : AnItem) → Contains items.items i ↔ IsItemOfOne code.now.source sites.now i) }
{
    let mut items = Vec::new(alloc);
    'sites: for site in sites {
        items.push(item_of(code, *site))?;
    }
    Ok(items)
}
