//! What becomes of a site in a plan.

ghost use Rattle.ca_model.specs.Accesses.{Site};
ghost use Rattle.ca_model.specs.Plans.{IsSite};
ghost use Rattle.ca_model.specs.Codes.{Typed};
ghost use Rattle.ca_prune.specs.Pruning.{Tells};
ghost use Rattle.ca_plan.specs.Planning.{options_of, site};
ghost use Rattle.ca_plan.specs.SiteTables.{IsStateOf};

use crate::named::is_named;
use crate::options::PlanOptions;
use ca_flow::Reason;

/// What becomes of a site: going back can't help at it, the options name others alone, or the plan takes it.
#[derive(Clone, Copy, Debug, PartialEq, Eq)]
pub(crate) enum SiteState {
    Pruned(Reason),
    Left,
    Planned,
}

/// What becomes of a site, where it is known whether going back can help.
pub(crate) fn state_of(options: &PlanOptions, reason: Option<Reason>, n: u32) -> SiteState
    ensures { (p : Typed) (s : Site) → IsSite p s (site n) → Tells p options.now.depth s reason → IsStateOf p (options_of options.now) s (site n) result }
{
    if let Some(reason) = reason {
        return SiteState::Pruned(reason);
    }
    if is_named(&options.only, n) {
        return SiteState::Planned;
    }
    SiteState::Left
}
