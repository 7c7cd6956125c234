// The plan by which a command hardens its source.
ghost use Rattle.std.specs.Prelude.{◌≡◌, ◌≤◌, false, IfOk};
ghost use Rattle.ca_model.specs.Plans.{Fits};
ghost use Rattle.ca_commands.specs.Options.{plan_options};
ghost use Rattle.ca_cmd.specs.Hardening.{wanted};
ghost use Rattle.ca_cmd.specs.Serving.{Hardens};

use crate::refusals::{Refusal, ServeNo};
use ca_commands::PlanWords;
use ca_model::{Checked, Numbers, Plan, the_empty_plan_is_sound, the_plan_of_a_source_is_sound};
use ca_plan::{PlanNo, PlanOptions, plan};
use ca_tree::NoMemory;
use std::alloc::Global;

// How often an activation may retry at one site, where the words don't say.
const LIMIT: u32 = 100;

// Through how many calls paths go up, where the words don't say.
const DEPTH: u32 = 3;

/// What the words say of a plan.
pub fn options(alloc: Global, words: &PlanWords) -> Result<PlanOptions, NoMemory>
    ensures { IfOk result (λ o. o ≡ wanted (plan_options words.now)) }
{
    let only = match &words.only {
        Some(numbers) => Some(Numbers::from_vec(numbers.as_slice().to_vec(alloc)?)),
        None => None,
    };
    Ok(PlanOptions {
        limit: words.limit.unwrap_or(LIMIT),
        depth: words.depth.unwrap_or(DEPTH),
        only,
    })
}

// The plan of a source that the words say.
fn plan_by(alloc: Global, checked: &Checked, words: &PlanWords) -> Result<Plan, ServeNo>
    requires limit { (wanted (plan_options words.now)).limit ≤ 10000 }
    requires depth { (wanted (plan_options words.now)).depth ≤ 8 }
    ensures { Hardens false (plan_options words.now) checked.now.typed result }
{
    let options = match options(alloc, words) {
        Ok(options) => options,
        Err(NoMemory) => return Err(ServeNo::NoMemory),
    };
    match plan(alloc, checked, &options) {
        Ok(plan) => Ok(plan),
        Err(PlanNo::NoSuchSite { number }) => {
            Err(ServeNo::Refused(Refusal::NoSuchSite { number }))
        }
        Err(PlanNo::NoMemory) => Err(ServeNo::NoMemory),
    }
}

/// The plan without a save where the source is taken as it is, and else the plan that the words say.
pub fn hardening(
    alloc: Global,
    checked: &Checked,
    plain: bool,
    words: &PlanWords,
) -> Result<Plan, ServeNo>
    requires limit { (wanted (plan_options words.now)).limit ≤ 10000 }
    requires depth { (wanted (plan_options words.now)).depth ≤ 8 }
    ensures hardened { Hardens plain (plan_options words.now) checked.now.typed result }
    ensures fits { IfOk result (λ plan. Fits checked.now.typed plan) }
{
    the_empty_plan_is_sound();
    the_plan_of_a_source_is_sound();
    if plain {
        return Ok(Plan::empty(alloc));
    }
    match plan_by(alloc, checked, words) {
        Ok(plan) => Ok(plan),
        Err(no) => Err(no),
    }
}
