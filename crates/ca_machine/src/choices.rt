//! A step of a chosen thread.

ghost use Rattle.std.specs.Prelude.{◌≡◌, ℤ, Some, None, slice_get, IfOk, IfErr};
ghost use Rattle.ca_model.specs.Codes.{code_of};
ghost use Rattle.ca_model.specs.Hardened.{Hardened};
ghost use Rattle.ca_model.specs.Machine.{State};
ghost use Rattle.ca_model.specs.Runner.{IsGiven};
ghost use Rattle.ca_model.specs.Shared.{Blocks, CanMake};
ghost use Rattle.ca_machine.specs.Machines.{Reaches};
ghost use Rattle.ca_machine.specs.Coming.{IsRunning};
ghost use Rattle.ca_machine.specs.Choices.{IsFresh, IsUnused, IsBlocked, IsStepBy, IsOutcome};

use crate::coming::least_block;
use crate::machine::Machine;
use crate::steps::FollowNo;
use crate::waits::Waits;
use ca_model::{Addr, Event, EventAct, Value, none_waits_in_vain};
use ca_tree::NoMemory;
use std::alloc::Global;

/// The block that a `malloc` gives where there is room: the least that was never used, a given one, or null.
#[derive(Clone, Copy, Debug, PartialEq, Eq)]
pub enum Fresh {
    Least,
    Block(u32),
    Null,
}

/// How a step goes where more than one is possible: the value of a `malloc`, and whether it goes back at a held lock.
#[derive(Clone, Copy, Debug, PartialEq, Eq)]
pub struct Choice {
    pub fresh: Fresh,
    pub timeout: bool,
}

/// Why a thread makes no step.
#[derive(Clone, Copy, Debug, PartialEq, Eq)]
pub enum StepNo {
    Blocked(Waits),
    /// The run or the thread has ended.
    Ended,
    NoThread,
    /// It is a call or create while all threads together have 20,000 frames.
    Frames,
    NoMemory,
}

// The value of a `malloc` that would give the least block, by choice.
fn fresh_value(fresh: Fresh, least: Value) -> Value
    ensures fresh { (m : Blocks) (cells : ℤ) → IsGiven m cells least → IsFresh fresh m cells result }
    ensures made { (m : Blocks) (cells : ℤ) → IsGiven m cells least → CanMake m cells least → IsUnused fresh m → CanMake m cells result }
{
    match least {
        Value::Num(_) => least,
        Value::Addr(_) => match fresh {
            Fresh::Least => least,
            Fresh::Block(block) => Value::Addr(Addr { block, offset: 0 }),
            Fresh::Null => Value::Num(0),
        },
    }
}

impl Machine {
    // For what a thread waits, where no retry is chosen.
    fn blocked(&self, thread: u32, timeout: bool) -> Option<Waits>
        ensures { (s : State Hardened) (h : Hardened) → Reaches self.now s → slice_get s.threads thread ≡ Some h → IsRunning s thread → IsBlocked (code_of self.now.source self.now.plan) s h timeout result }
    {
        if !timeout {
            return self.waits(thread);
        }
        if self.may_retry(thread) {
            return None;
        }
        self.waits(thread)
    }

    // The event that a thread makes by a choice.
    fn chosen(&self, alloc: Global, thread: u32, choice: Choice) -> Result<Event, NoMemory>
        requires running { (s : State Hardened) → Reaches self.now s → IsRunning s thread }
        requires stands { (s : State Hardened) → Reaches self.now s → (h : Hardened) × (slice_get s.threads thread ≡ Some h) }
        requires free { (s : State Hardened) (h : Hardened) → Reaches self.now s → slice_get s.threads thread ≡ Some h → IsBlocked (code_of self.now.source self.now.plan) s h choice.timeout None }
        requires unused { (s : State Hardened) → Reaches self.now s → IsUnused choice.fresh s.shared.blocks }
        ensures thread { IfOk result (λ e. e.thread ≡ thread) }
        ensures step { IfOk result (λ e. (s : State Hardened) → Reaches self.now s → IsStepBy self.now s thread choice e.act) }
    {
        let _least = least_block(self.shared());
        none_waits_in_vain();
        let event = match self.coming(alloc, thread) {
            Ok(Some(event)) => event,
            Ok(None) => unreachable!(),
            Err(NoMemory) => return Err(NoMemory),
        };
        match event.act {
            EventAct::Malloc { cells, at } => Ok(Event {
                thread,
                act: EventAct::Malloc {
                    cells,
                    at: fresh_value(choice.fresh, at),
                },
            }),
            _ => Ok(event),
        }
    }

    /// Makes one event of a thread: the one that comes, with the value of a `malloc` and a retry at a held lock by
    /// choice. A chosen block must be one that was never used. The refusals come in this order: `NoThread` where the
    /// number is no thread's; `Ended` where the run or the thread has ended; `Blocked` where the thread waits and, at a
    /// lock with a possible retry, no retry is chosen; `Frames` at a call or create while all threads together have
    /// 20,000 frames or more. After a refusal the machine is as it was.
    pub fn step(&mut self, alloc: Global, thread: u32, choice: Choice) -> Result<(), StepNo>
        requires { (s : State Hardened) → Reaches self.old s → IsUnused choice.fresh s.shared.blocks }
        ensures outcome { (s : State Hardened) → Reaches self.old s → IsOutcome self.old s thread choice self.new result }
        ensures unchanged { IfErr result (λ no. self.new ≡ self.old) }
    {
        if thread >= self.shared().threads() {
            return Err(StepNo::NoThread);
        }
        if !self.is_running(thread) {
            return Err(StepNo::Ended);
        }
        match self.blocked(thread, choice.timeout) {
            Some(wait) => return Err(StepNo::Blocked(wait)),
            None => {}
        }
        let event = match self.chosen(alloc, thread, choice) {
            Ok(event) => event,
            Err(NoMemory) => return Err(StepNo::NoMemory),
        };
        if self.is_crowded(&event.act) {
            return Err(StepNo::Frames);
        }
        match self.follow(alloc, &event) {
            Ok(()) => Ok(()),
            Err(FollowNo::NotAStep) => unreachable!(),
            Err(FollowNo::NoMemory) => Err(StepNo::NoMemory),
        }
    }
}
