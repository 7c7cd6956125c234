//! How a run has ended, over the parts of a machine.

ghost use Rattle.std.specs.Prelude.{◌≡◌, ◌↔◌, IsTrue};
ghost use Rattle.ca_model.specs.Hardened.{Hardened, hardened};
ghost use Rattle.ca_model.specs.Machine.{State};
ghost use Rattle.ca_model.specs.Opening.{CanStep, EndsAs};
ghost use Rattle.ca_model.specs.Shared as phase;
ghost use Rattle.ca_flow.specs.Lowerings.{rules_of};
ghost use Rattle.ca_machine.specs.Machines.{AreParts, StandAs};

use crate::coming::{Status, least_block, thread_status};
use ca_flow::Code;
use ca_model::Ending;
use ca_shared::{Phase, Shared};
use ca_thread::Private;

// Whether some entry is possible.
fn can_step(code: &Code, shared: &Shared, privates: &[Private]) -> bool
    requires { AreParts code.now shared.now privates.now }
    ensures { (s : State Hardened) → StandAs code.now shared.now privates.now s → s.shared.phase ≡ phase.Open → (IsTrue result ↔ CanStep (hardened (rules_of code.now)) s) }
{
    let _least = least_block(shared);
    'threads: for thread in 0..shared.threads() {
        match thread_status(code, shared, privates, thread) {
            Status::Rests => {}
            Status::Moves => return true,
            Status::TimesOut => return true,
        }
    }
    false
}

/// How the run has ended, if it has. It takes no memory.
pub(crate) fn ending(code: &Code, shared: &Shared, privates: &[Private]) -> Ending
    requires { AreParts code.now shared.now privates.now }
    ensures { (s : State Hardened) → StandAs code.now shared.now privates.now s → EndsAs (hardened (rules_of code.now)) s result }
{
    match shared.phase() {
        Phase::Finished => Ending::Finished,
        Phase::Failed(kind) => Ending::Fault(kind),
        Phase::Open => {
            if can_step(code, shared, privates) {
                Ending::Unended
            } else {
                Ending::Deadlock
            }
        }
    }
}
