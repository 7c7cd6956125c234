//! The machine.

ghost use Rattle.std.specs.Prelude.{◌≡◌, ◌≤◌, ◌↔◌, ℕ, List, [], Some, is_some, slice_get, IfOk, IfErr, IsTrue};
ghost use Rattle.ca_tree.specs.declared.numbers.SiteId.{SiteId};
ghost use Rattle.ca_model.specs.declared.values.EventAct.{EventAct};
ghost use Rattle.ca_model.specs.Activations.{IsActivation, tries_in};
ghost use Rattle.ca_model.specs.Hardened.{Hardened, retry_site};
ghost use Rattle.ca_model.specs.Codes.{code_of};
ghost use Rattle.ca_model.specs.Plans.{Fits};
ghost use Rattle.ca_model.specs.WellFormed.{IsWellFormed};
ghost use Rattle.ca_model.specs.Opening.{EndsAs};
ghost use Rattle.ca_model.specs.Machine.{State, Step};
ghost use Rattle.ca_model.specs.Runner.{IsCrowded};
ghost use Rattle.ca_shared.specs.Histories.{state};
ghost use Rattle.ca_machine.specs.Machines.{Reaches, rules, went};
ghost use Rattle.ca_machine.specs.Moves.{Decides};
ghost use Rattle.ca_machine.specs.Coming.{IsRunning, IsStatusOf, IsComing, IsWaitOf};

use crate::coming::{Status, coming_event, is_running, thread_status};
use crate::endings;
use crate::steps::{FollowNo, enter};
use crate::waits::{Waits, wait};
use ca_flow::Code;
use ca_lower::lower;
use ca_model::{
    Checked, Ending, Event, EventAct, Plan, Value, entries_tell_the_frames, retries_are_bounded,
};
use ca_shared::Shared;
use ca_thread::Private;
use ca_tree::NoMemory;
use std::alloc::Global;
use std::marker::Model;

// More frames of all threads together are too many.
const MOST_FRAMES: u32 = 20_000;

/// A source under a plan, with a run of it: the shared state, and each thread by itself. Contracts see the source, the
/// plan and the entries so far. Its entries are a hardened run of the source under the plan, from the opening.
#[derive(Drop)]
pub struct Machine {
    code: Code,
    shared: Shared,
    privates: Vec<Private>,
}

impl Model for Machine {
    ghost use Rattle.std.specs.Coded.{codes};
    ghost use Rattle.ca_model.specs.contracts.tree.Function as typed_function;
    ghost use Rattle.ca_model.specs.contracts.plan.Plan as typed_plan;
    ghost use Rattle.ca_machine.specs.Machines.{Traced, AreParts};

    ghost Value = { Traced };

    ghost coded = { Prim.hlevel (codes, typed_function.the_row.coded, typed_plan.the_row.coded) };

    ghost view = { λ m. record { source = m.code.source; plan = m.code.plan; trace = m.shared.trace } };

    ghost invariant = { λ m. AreParts m.code m.shared m.privates.items };
}

impl Machine {
    /// The opening of a source under a plan that fits it. It takes time in the size of the source and of the plan.
    pub fn start(alloc: Global, checked: &Checked, plan: &Plan) -> Result<Machine, NoMemory>
        requires { Fits checked.now.typed plan.now }
        ensures { IfOk result (λ m. m ≡ record { source = checked.now.typed; plan = plan.now; trace = [] }) }
    {
        let code = lower(alloc, checked, plan)?;
        let shared = Shared::start(alloc, checked)?;
        let main = Private::start(alloc, &code, 0, code.main(), Value::Num(0))?;
        let mut privates = Vec::new(alloc);
        privates.push(main)?;
        Ok(Machine {
            code,
            shared,
            privates,
        })
    }

    /// The shared state. No activation in its trace has more retries at a site than the limit of the plan. It takes no
    /// memory.
    pub fn shared(&self) -> &Shared
        ensures value { result.now ≡ record { globals = self.now.source.globals; mutexes = self.now.source.mutexes; trace = self.now.trace } }
        ensures reached { (s : State Hardened) → Reaches self.now s → s.shared ≡ state result.now }
        ensures runs { (s : State Hardened) × Reaches self.now s }
        ensures formed { IsWellFormed self.now.source }
        ensures bounded { (t : ℕ) (activation : List EventAct) (site : SiteId) → IsActivation t self.now.trace activation → tries_in site activation ≤ self.now.plan.limit }
    {
        let _graphs = self.code.graphs();
        retries_are_bounded();
        &self.shared
    }

    /// How the run has ended, or `Unended`. It takes no memory.
    pub fn ending(&self) -> Ending
        ensures { (s : State Hardened) → Reaches self.now s → EndsAs (rules self.now) s result }
    {
        endings::ending(&self.code, &self.shared, &self.privates)
    }

    /// For what a thread of a run that is neither finished nor in a fault waits: the lock of a held mutex at which it
    /// stands, with or without a possible retry, or the join at which it stands of a thread that hasn't ended; else
    /// none. It takes no memory.
    pub fn waits(&self, thread: u32) -> Option<Waits>
        ensures { (s : State Hardened) → Reaches self.now s → IsWaitOf s ((rules self.now).want) thread result }
    {
        wait(&self.code, &self.shared, &self.privates, thread)
    }

    /// Makes exactly this event. `NotAStep` comes exactly where no step from here makes it; the limit on frames doesn't
    /// count. After a refusal the machine is as it was.
    pub fn follow(&mut self, alloc: Global, event: &Event) -> Result<(), FollowNo>
        ensures made { IfOk result (λ u. self.new ≡ went self.old event.now) }
        ensures unchanged { IfErr result (λ no. self.new ≡ self.old) }
        ensures exact { (s : State Hardened) → Reaches self.old s → Decides result ((new : State Hardened) × Step (rules self.old) s event.now new) }
    {
        enter(
            alloc,
            &self.code,
            &mut self.shared,
            &mut self.privates,
            event,
        )
    }

    /// What a thread may do.
    pub(crate) fn status(&self, thread: u32) -> Status
        ensures { (events patience : ℕ) (s : State Hardened) → Reaches self.now s → IsStatusOf (code_of self.now.source self.now.plan) events patience s thread result }
    {
        thread_status(&self.code, &self.shared, &self.privates, thread)
    }

    /// The event that comes for a thread, if one does.
    pub(crate) fn coming(&self, alloc: Global, thread: u32) -> Result<Option<Event>, NoMemory>
        ensures { IfOk result (λ e. (events patience : ℕ) (s : State Hardened) → Reaches self.now s → IsComing (code_of self.now.source self.now.plan) events patience s thread e) }
    {
        coming_event(alloc, &self.code, &self.shared, &self.privates, thread)
    }

    /// Whether entries of a thread may come: the run is open, and the thread is there and hasn't ended.
    pub(crate) fn is_running(&self, thread: u32) -> bool
        ensures running { (s : State Hardened) → Reaches self.now s → (IsTrue result ↔ IsRunning s thread) }
        ensures stands { IsTrue result → (s : State Hardened) → Reaches self.now s → (h : Hardened) × (slice_get s.threads thread ≡ Some h) }
    {
        is_running(&self.shared, thread)
    }

    /// Whether a thread may go back where it stands.
    pub(crate) fn may_retry(&self, thread: u32) -> bool
        ensures { (s : State Hardened) (h : Hardened) → Reaches self.now s → slice_get s.threads thread ≡ Some h → result ≡ is_some (retry_site (code_of self.now.source self.now.plan) h) }
    {
        match self.privates.get(thread as usize) {
            Some(own) => own.can_retry(&self.code).is_some(),
            None => false,
        }
    }

    /// Whether an entry is a call or create while all threads together have 20,000 frames or more.
    pub(crate) fn is_crowded(&self, act: &EventAct) -> bool
        ensures { (s : State Hardened) → Reaches self.now s → (IsTrue result ↔ IsCrowded s act.now) }
    {
        entries_tell_the_frames();
        match act {
            EventAct::Call(_) => self.shared.frames() >= MOST_FRAMES,
            EventAct::Create(_) => self.shared.frames() >= MOST_FRAMES,
            _ => false,
        }
    }
}
