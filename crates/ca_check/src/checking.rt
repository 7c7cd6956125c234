//! A list of entries as a run.

ghost use Rattle.std.specs.Prelude.{◌≡◌, ◌⊎◌, ℕ, [], IfOk, IfErr};
ghost use Rattle.ca_model.specs.Plans.{Fits};
ghost use Rattle.ca_check.specs.Verdicts.{IsRunTo, IsFirstNoStep, IsVerdict};

use ca_machine::{FollowNo, Machine};
use ca_model::{Checked, Ending, Event, Plan};
use ca_tree::NoMemory;
use std::alloc::Global;

/// Why a list of entries isn't accepted.
#[derive(Clone, Copy, Debug, PartialEq, Eq)]
pub enum CheckNo {
    /// The entry at this index, counted from 0, is the first that is no step after those before it.
    NotARun { index: u32 },
    /// An allocation was refused. It may come at any list.
    NoMemory,
}

// The refusal at an index. There is no memory for so many entries that their number has more than 32 bits.
fn not_a_run(index: usize) -> CheckNo
    ensures { (result ≡ CheckNo.NotARun index) ⊎ (result ≡ CheckNo.NoMemory) }
{
    match u32::try_from(index) {
        Ok(index) => CheckNo::NotARun { index },
        Err(_) => CheckNo::NoMemory,
    }
}

// Follows the entries, from the opening on.
fn follow_all(alloc: Global, machine: &mut Machine, events: &[Event]) -> Result<(), CheckNo>
    requires { machine.old.trace ≡ [] }
    ensures all { IfOk result (λ u. machine.new ≡ record machine.old { trace = events.now }) }
    ensures refused { IfErr result (λ no. IsVerdict machine.old.source machine.old.plan events.now (Err no)) }
{
    'entries: for (index, event) in events.iter().enumerate() {
        // The entries so far are a run.
        let _reached = machine.shared();
        match machine.follow(alloc, event) {
            Ok(()) => {}
            Err(FollowNo::NotAStep) => return Err(not_a_run(index)),
            Err(FollowNo::NoMemory) => return Err(CheckNo::NoMemory),
        }
    }
    Ok(())
}

// The verdict on a list.
fn verdict(
    alloc: Global,
    checked: &Checked,
    plan: &Plan,
    events: &[Event],
) -> Result<Ending, CheckNo>
    requires { Fits checked.now.typed plan.now }
    ensures { IsVerdict checked.now.typed plan.now events.now result }
{
    let mut machine = match Machine::start(alloc, checked, plan) {
        Ok(machine) => machine,
        Err(NoMemory) => return Err(CheckNo::NoMemory),
    };
    match follow_all(alloc, &mut machine, events) {
        Ok(()) => {
            // So are all of them.
            let _reached = machine.shared();
            Ok(machine.ending())
        }
        Err(no) => Err(no),
    }
}

/// Whether the entries are a run of the source under the plan, from the opening: its ending, which is finished, a fault, deadlock or
/// unended. With the empty plan these are the runs of the source, in which no entry is a save or a retry. The limit on frames doesn't
/// count here. It takes the time of following each entry once.
///
/// `NotARun` comes for any other list, with the first entry that is no step.
pub fn check(
    alloc: Global,
    checked: &Checked,
    plan: &Plan,
    events: &[Event],
) -> Result<Ending, CheckNo>
    requires { Fits checked.now.typed plan.now }
    ensures verdict { IsVerdict checked.now.typed plan.now events.now result }
    ensures ok { (end : Ending) → IsRunTo checked.now.typed plan.now events.now end → (result ≡ Ok end) ⊎ (result ≡ Err CheckNo.NoMemory) }
    ensures not_a_run { (index : ℕ) → IsFirstNoStep checked.now.typed plan.now events.now index → (result ≡ Err (CheckNo.NotARun index)) ⊎ (result ≡ Err CheckNo.NoMemory) }
{
    verdict(alloc, checked, plan, events)
}
