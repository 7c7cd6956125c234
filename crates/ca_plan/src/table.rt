//! The table of the sites of a source.

ghost use Rattle.std.specs.Prelude.{◌≡◌, ◌++◌, ◌-◌, ◌≤◌, ℕ, IfOk, None, get_or, List};
ghost use Rattle.std.specs.Prelude.{Err};
ghost use Rattle.ca_model.specs.Accesses.{Site as ASite};
ghost use Rattle.ca_model.specs.declared.tree.Item.{Item};
ghost use Rattle.ca_model.specs.Plans.{IsItem};
ghost use Rattle.ca_plan.specs.declared.options.PlanNo.TheVariants as plan_no;
ghost use Rattle.ca_plan.specs.Finding.{AreWordsOf, IsKnown, IsKnownIfAny};
ghost use Rattle.ca_plan.specs.Planning.{options_of, named, AreSiteNumbers, IsFirstNoSite};
ghost use Rattle.ca_plan.specs.SiteTables.{IsSiteTable, site_line};

use crate::finder::{Finder, Known};
use crate::lines::{add_count, add_line};
use crate::named::{first_no_site, named};
use crate::options::{PlanNo, PlanOptions};
use crate::points::formed;
use crate::state::{SiteState, state_of};
use ca_flow::{Code, Reason};
use ca_lower::lower;
use ca_model::{Checked, Plan, the_empty_plan_is_sound};
use ca_prune::hopeless_sites;
use ca_sites::{Site, sites};
use ca_tree::{NoMemory, SiteId};
use std::alloc::Global;

// Why going back can't help at a site, if it can't.
fn reason_at(reasons: &[Option<Reason>], n: SiteId) -> Option<Reason>
    ensures { result ≡ get_or reasons.now (n.0 - 1) None }
{
    match reasons.get(n.0.saturating_sub(1) as usize) {
        None => None,
        Some(reason) => *reason,
    }
}

// Adds the line of a site, with words that are known or are found.
fn add_site(
    alloc: Global,
    finder: &Finder,
    text: &mut Vec<u8>,
    site: &Site,
    state: SiteState,
    known: Option<Known>,
    depth: u32,
) -> Result<Known, NoMemory>
    requires item { (x : Item) × IsItem finder.now.typed x site.now.item }
    requires depth { depth ≤ 8 }
    requires known { IsKnownIfAny finder.now depth known }
    ensures known { IfOk result (λ k. IsKnown finder.now depth k) }
    ensures line { IfOk result (λ k. (x : Item) → IsItem finder.now.typed x site.now.item → (words : List ℕ) × AreWordsOf finder.now depth x words × (text.new.items ≡ text.old.items ++ site_line site.now state words)) }
{
    let head = finder.head(site.item);
    let found = finder.known_at(alloc, known, head, depth)?;
    add_line(alloc, text, site, state, &found.words)?;
    Ok(found)
}

// The table, where each number that is named is a site's.
fn table_of(
    alloc: Global,
    checked: &Checked,
    code: &Code,
    options: &PlanOptions,
) -> Result<Vec<u8>, NoMemory>
    requires source { code.now.source ≡ checked.now.typed }
    requires depth { options.now.depth ≤ 8 }
    ensures { IfOk result (λ text. IsSiteTable checked.now (options_of options.now) text.items) }
{
    formed(code);
    let list = sites(alloc, checked)?;
    let reasons = hopeless_sites(alloc, code, options.depth)?;
    let finder = Finder::new(alloc, checked, code)?;
    let mut text = Vec::new(alloc);
    add_count(alloc, &mut text, list.len())?;
    let mut known = None;
    'sites: for site in &list {
        let state = state_of(options, reason_at(&reasons, site.id), site.id.0);
        let found = add_site(alloc, &finder, &mut text, site, state, known, options.depth)?;
        known = Some(found);
    }
    Ok(text)
}

/// The table of the sites of a source under options: a line `sites` with their number, and for each site a line with its
/// number, its line and column, its kind, what becomes of it in the plan, and its points, each after a space. Going back
/// can't help at a site that is `pruned`; one that is `left` is not among those that the options name; all others are
/// `planned`. Points are the functions at whose entry the backward paths of the site's item stop, in order, and then the
/// places of the items behind which they do. `NoSuchSite` comes where a number is named that is no site's, and has the first
/// such number. It takes the time of `plan`, and for each straight run of items with sites that of one search for points.
pub fn site_table(
    alloc: Global,
    checked: &Checked,
    options: &PlanOptions,
) -> Result<Vec<u8>, PlanNo>
    requires limit { options.now.limit ≤ 10000 }
    requires depth { options.now.depth ≤ 8 }
    ensures table { IfOk result (λ text. IsSiteTable checked.now (options_of options.now) text.items) }
    ensures no_such_site { (n : ℕ) → result ≡ Err (plan_no.NoSuchSite n) → IsFirstNoSite checked.now.typed (named options.now.only) n }
    ensures all_sites { IfOk result (λ text. AreSiteNumbers checked.now.typed (named options.now.only)) }
{
    the_empty_plan_is_sound();
    let code = lower(alloc, checked, &Plan::empty(alloc))?;
    if let Some(number) = first_no_site(&code, named(&options.only)) {
        return Err(PlanNo::NoSuchSite { number });
    }
    let text = table_of(alloc, checked, &code, options)?;
    Ok(text)
}
