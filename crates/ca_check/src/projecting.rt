//! The projection of a run.

ghost use Rattle.std.specs.Prelude.{◌≡◌, ◌⊎◌, ℕ, IfOk};
ghost use Rattle.ca_model.specs.Plans.{Fits, IsSound};
ghost use Rattle.ca_model.specs.Projection.{projection};
ghost use Rattle.ca_check.specs.Verdicts.{IsFirstNoStep};
ghost use Rattle.ca_check.specs.Projections.{IsRun, IsProjection, IsErased};

use crate::checking::{CheckNo, check};
use ca_erasure::attempts_can_be_erased;
use ca_model::{Checked, Event, Events, Plan, typed_programs_are_well_formed};
use ca_project::projection;
use ca_tree::NoMemory;
use std::alloc::Global;

// The answer for a list.
fn projected(
    alloc: Global,
    checked: &Checked,
    plan: &Plan,
    events: &[Event],
) -> Result<Events, CheckNo>
    requires { Fits checked.now.typed plan.now }
    ensures { IsProjection checked.now.typed plan.now events.now result }
{
    match check(alloc, checked, plan, events) {
        Ok(_) => {}
        Err(no) => return Err(no),
    }
    match projection(alloc, events) {
        Ok(list) => Ok(list),
        Err(NoMemory) => Err(CheckNo::NoMemory),
    }
}

/// The projection of a run of the source under the plan, from the opening: the run without its abandoned attempts. Where
/// the plan is sound, it is a run of the source that leads to the same shared state, and that has the ending of the run
/// where that is over. It takes the time of following each entry once.
///
/// It refuses exactly as `check` does.
pub fn project(
    alloc: Global,
    checked: &Checked,
    plan: &Plan,
    events: &[Event],
) -> Result<Events, CheckNo>
    requires { Fits checked.now.typed plan.now }
    ensures projection { IsProjection checked.now.typed plan.now events.now result }
    ensures erased { IfOk result (λ list. IsSound checked.now.typed plan.now → IsErased checked.now.typed plan.now events.now list) }
    ensures ok { IsRun checked.now.typed plan.now events.now → (result ≡ Ok (projection events.now)) ⊎ (result ≡ Err CheckNo.NoMemory) }
    ensures not_a_run { (index : ℕ) → IsFirstNoStep checked.now.typed plan.now events.now index → (result ≡ Err (CheckNo.NotARun index)) ⊎ (result ≡ Err CheckNo.NoMemory) }
{
    let _program = checked.program();
    typed_programs_are_well_formed();
    attempts_can_be_erased();
    projected(alloc, checked, plan, events)
}
