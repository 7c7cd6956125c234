//! The runner.

ghost use Rattle.std.specs.Prelude.{◌≡◌, ◌<◌, ◌≤◌, ◌+◌, ◌++◌, ◌↔◌, ℕ, List, [], length, IfOk, IfSome, IfNone, IfErr, IsTrue};
ghost use Rattle.std.specs.List.Sorted.{IsStrictlyIncreasing};
ghost use Rattle.ca_model.specs.declared.values.Event.{Event};
ghost use Rattle.ca_model.specs.Codes.{code_of};
ghost use Rattle.ca_model.specs.Hardened.{Hardened};
ghost use Rattle.ca_model.specs.Machine.{State};
ghost use Rattle.ca_model.specs.Runner.{AreEnabled, IsEnabled, Comes};
ghost use Rattle.ca_model.specs.Schedules.{Schedule};
ghost use Rattle.ca_machine.specs.Machines.{Reaches};
ghost use Rattle.ca_machine.specs.Runs.{GoesOn, IsAlong, IsClosedAs, Passes, AreBelow};

use crate::coming::Status;
use crate::machine::Machine;
use crate::steps::FollowNo;
use ca_model::{Ending, Event};
use ca_sched::Schedule;
use ca_shared::Phase;
use ca_tree::{Listed, NoMemory};
use std::alloc::Global;

// How the run has ended, if it has finished or failed.
fn closed(machine: &Machine) -> Option<Ending>
    ensures { (s : State Hardened) → Reaches machine.now s → IsClosedAs s.shared.phase result }
{
    match machine.shared().phase() {
        Phase::Open => None,
        Phase::Finished => Some(Ending::Finished),
        Phase::Failed(kind) => Some(Ending::Fault(kind)),
    }
}

// Whether a thread is of the first group, or of the second.
fn passes(machine: &Machine, thread: u32, patience: u32, late: bool) -> bool
    requires { (s : State Hardened) → Reaches machine.now s → thread < s.shared.threads }
    ensures { (events : ℕ) (s : State Hardened) → Reaches machine.now s → (IsTrue result ↔ Passes events patience machine.now s late thread) }
{
    match machine.status(thread) {
        Status::Rests => false,
        Status::Moves => !late,
        Status::TimesOut => {
            if late {
                return true;
            }
            machine.shared().since_last(thread) >= patience
        }
    }
}

// The threads of the first group, or of the second.
fn group(alloc: Global, machine: &Machine, patience: u32, late: bool) -> Result<Vec<u32>, NoMemory>
    ensures ascend { IfOk result (λ list. IsStrictlyIncreasing list.items) }
    ensures exactly { IfOk result (λ list. (events : ℕ) (s : State Hardened) → Reaches machine.now s → AreBelow events patience machine.now s late s.shared.threads list.items) }
{
    let mut list = Vec::new(alloc);
    let threads = machine.shared().threads();
    'threads: for thread in 0..threads {
        if passes(machine, thread, patience, late) {
            list.push(thread)?;
        }
    }
    Ok(list)
}

// The threads that are enabled.
fn enabled_threads(alloc: Global, machine: &Machine, patience: u32) -> Result<Vec<u32>, NoMemory>
    ensures { IfOk result (λ list. (events : ℕ) (s : State Hardened) → Reaches machine.now s → AreEnabled (code_of machine.now.source machine.now.plan) events patience s machine.now.trace list.items) }
{
    let ready = match group(alloc, machine, patience, false) {
        Ok(ready) => ready,
        Err(NoMemory) => return Err(NoMemory),
    };
    if !ready.is_empty() {
        return Ok(ready);
    }
    match group(alloc, machine, patience, true) {
        Ok(late) => Ok(late),
        Err(NoMemory) => Err(NoMemory),
    }
}

// The event of an enabled thread.
fn event_of(alloc: Global, machine: &Machine, thread: u32) -> Result<Event, NoMemory>
    requires { (s : State Hardened) → Reaches machine.now s → (events : ℕ) × (patience : ℕ) × IsEnabled (code_of machine.now.source machine.now.plan) events patience s machine.now.trace thread }
    ensures thread { IfOk result (λ e. e.thread ≡ thread) }
    ensures comes { IfOk result (λ e. (events patience : ℕ) (s : State Hardened) → Reaches machine.now s → (new : State Hardened) × Comes (code_of machine.now.source machine.now.plan) events patience s thread e.act new) }
{
    let _shared = machine.shared();
    match machine.coming(alloc, thread) {
        Ok(Some(event)) => Ok(event),
        Ok(None) => unreachable!(),
        Err(NoMemory) => Err(NoMemory),
    }
}

// One turn of the runner: the ending, if there is one, or an entry.
fn turn(
    alloc: Global,
    machine: &mut Machine,
    schedule: &mut Schedule,
    events: u32,
    patience: u32,
) -> Result<Option<Ending>, NoMemory>
    requires { length machine.old.trace ≤ events }
    ensures over { IfOk result (λ end. IfSome end (λ x. (s : State Hardened) → Reaches machine.old s → (machine.new ≡ machine.old) × GoesOn events patience machine.old schedule.old s [] x)) }
    ensures on { IfOk result (λ end. IfNone end ((s : State Hardened) → Reaches machine.old s → IsAlong events patience machine.old machine.new schedule.old schedule.new s)) }
    ensures longer { IfOk result (λ end. IfNone end ((length machine.new.trace ≡ length machine.old.trace + 1) × (length machine.new.trace ≤ events))) }
    ensures err { IfErr result (λ no. machine.new ≡ machine.old) }
{
    if let Some(end) = closed(machine) {
        return Ok(Some(end));
    }
    let list = match enabled_threads(alloc, machine, patience) {
        Ok(list) => list,
        Err(NoMemory) => return Err(NoMemory),
    };
    if list.is_empty() {
        return Ok(Some(Ending::Deadlock));
    }
    if machine.shared().trace().len() >= events as usize {
        return Ok(Some(Ending::Events));
    }
    let thread = schedule.pick(&list);
    let event = match event_of(alloc, machine, thread) {
        Ok(event) => event,
        Err(NoMemory) => return Err(NoMemory),
    };
    if machine.is_crowded(&event.act) {
        return Ok(Some(Ending::Frames));
    }
    match machine.follow(alloc, &event) {
        Ok(()) => Ok(None),
        Err(FollowNo::NotAStep) => unreachable!(),
        Err(FollowNo::NoMemory) => Err(NoMemory),
    }
}

impl Machine {
    /// The enabled threads in ascending order: those that can make an entry other than a retry at a held lock, or have
    /// waited at such a lock for so many entries; where there are none, all that may go back at one. It takes time in
    /// the threads.
    pub fn enabled(&self, alloc: Global, patience: u32) -> Result<Listed<u32>, NoMemory>
        ensures { IfOk result (λ list. (events : ℕ) (s : State Hardened) → Reaches self.now s → AreEnabled (code_of self.now.source self.now.plan) events patience s self.now.trace list) }
    {
        match enabled_threads(alloc, self, patience) {
            Ok(list) => Ok(Listed::from_vec(list)),
            Err(NoMemory) => Err(NoMemory),
        }
    }

    /// Goes on as the runner does, to an ending other than `Unended`. There may be so many entries, those that stand
    /// already counted. After want of memory it is at some entry of that same run.
    pub fn run_alone(
        &mut self,
        alloc: Global,
        schedule: &mut Schedule,
        events: u32,
        patience: u32,
    ) -> Result<Ending, NoMemory>
        requires within { length self.old.trace ≤ events }
        requires few { events < 4000000000 }
        ensures ran { IfOk result (λ end. (s : State Hardened) → Reaches self.old s → (rest : List Event) × (self.new ≡ record self.old { trace = self.old.trace ++ rest }) × GoesOn events patience self.old schedule.old s rest end) }
        ensures cut { IfErr result (λ no. (s : State Hardened) → Reaches self.old s → (d : Schedule) × IsAlong events patience self.old self.new schedule.old d s) }
    {
        'turns: loop {
            match turn(alloc, self, schedule, events, patience) {
                Ok(Some(end)) => return Ok(end),
                Ok(None) => {}
                Err(NoMemory) => return Err(NoMemory),
            }
        }
    }
}
