//! The plan of a source.

ghost use Rattle.std.specs.Prelude.{◌≡◌, ◌<◌, ◌≤◌, ℕ, IfOk, Contains};
ghost use Rattle.std.specs.Prelude.{Err};
ghost use Rattle.ca_tree.specs.declared.numbers.FunId.{FunId as AFun};
ghost use Rattle.ca_tree.specs.declared.numbers.ItemId.{ItemId as AnItem};
ghost use Rattle.ca_model.specs.Bounds.{IsBounded};
ghost use Rattle.ca_model.specs.Plans.{IsPlanOf};
ghost use Rattle.ca_model.specs.WellFormed.{IsWellFormed};
ghost use Rattle.ca_plan.specs.declared.options.PlanNo.TheVariants as plan_no;
ghost use Rattle.ca_plan.specs.Planning.{options_of, named, AreSiteNumbers, IsFirstNoSite, AreItems, ArePoints};

use crate::acquiring::acquiring;
use crate::named::{first_no_site, named};
use crate::options::{PlanNo, PlanOptions};
use crate::points::{formed, points};
use crate::taken::{items_of, taken};
use ca_callers::Callers;
use ca_flow::{Code, Points};
use ca_lower::lower;
use ca_model::{Checked, Plan, the_empty_plan_is_sound};
use ca_tree::{Listed, NoMemory};
use std::alloc::Global;

// The plan, where each number that is named is a site's.
fn plan_of(alloc: Global, code: &Code, options: &PlanOptions) -> Result<Plan, NoMemory>
    requires limit { options.now.limit ≤ 10000 }
    requires depth { options.now.depth ≤ 8 }
    ensures { IfOk result (λ plan. IsPlanOf code.now.source (options_of options.now) plan) }
{
    formed(code);
    let sites = taken(alloc, code, options)?;
    let own = items_of(alloc, code, &sites)?;
    let callers = Callers::new(alloc, code)?;
    let found = points(alloc, &callers, &own, options.depth)?;
    let acquires = acquiring(alloc, code, found.items.as_slice(), &own)?;
    let Points { after, entries, .. } = found;
    Ok(Plan {
        limit: options.limit,
        saves_after: after,
        saves_at_entry: entries,
        sites: Listed::from_vec(sites),
        acquires: Listed::from_vec(acquires),
    })
}

/// The plan of a source under options: the sites that are not hopeless and that the options name, the points at which the
/// backward paths from their items stop, and the locks and `malloc` items before them, with those of their own items that
/// have a `malloc`. `NoSuchSite` comes where a number is named that is no site's, and has the first such number. It takes
/// time in the items of the source, the links and calls between them, once for each number of calls that is gone up.
pub fn plan(alloc: Global, checked: &Checked, options: &PlanOptions) -> Result<Plan, PlanNo>
    requires limit { options.now.limit ≤ 10000 }
    requires depth { options.now.depth ≤ 8 }
    ensures plan { IfOk result (λ plan. IsPlanOf checked.now.typed (options_of options.now) plan) }
    ensures no_such_site { (n : ℕ) → result ≡ Err (plan_no.NoSuchSite n) → IsFirstNoSite checked.now.typed (named options.now.only) n }
    ensures all_sites { IfOk result (λ plan. AreSiteNumbers checked.now.typed (named options.now.only)) }
{
    the_empty_plan_is_sound();
    let code = lower(alloc, checked, &Plan::empty(alloc))?;
    if let Some(number) = first_no_site(&code, named(&options.only)) {
        return Err(PlanNo::NoSuchSite { number });
    }
    let plan = plan_of(alloc, &code, options)?;
    Ok(plan)
}
