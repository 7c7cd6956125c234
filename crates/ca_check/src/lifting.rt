//! The lifted list of a run of the source.

ghost use Rattle.std.specs.Prelude.{◌≡◌, ◌⊎◌, ◌∷◌, ℕ, List, IfOk, IfSome, IfNone};
ghost use Rattle.ca_model.specs.declared.values.Event.{Event as Entry};
ghost use Rattle.ca_model.specs.Plans.{Fits};
ghost use Rattle.ca_model.specs.SourceRuns.{no_plan};
ghost use Rattle.ca_erasure.specs.Lifted.{is_fault, IsFailureFree, IsLifted};
ghost use Rattle.ca_check.specs.Verdicts.{IsFirstNoStep};
ghost use Rattle.ca_check.specs.Lifts.{IsLiftOf, IsFaultEntry, IsFaultAt, IsLift};
ghost use Rattle.ca_check.specs.Ways.{IsOnWay, IsNext, IsBeside};

use crate::checking::{CheckNo, check};
use ca_machine::{FollowNo, Machine};
use ca_model::{Checked, Event, EventAct, Events, Plan, the_empty_plan_is_sound};
use ca_thread::copy_event;
use ca_tree::NoMemory;
use std::alloc::Global;

/// Why a list of entries isn't lifted.
#[derive(Clone, Copy, Debug, PartialEq, Eq)]
pub enum LiftNo {
    /// The entry at this index, counted from 0, is the first that is no step of the source after those before it.
    NotARun { index: u32 },
    /// The list is a run of the source, which ends with a fault entry at this index.
    Fault { index: u32 },
    /// An allocation was refused. It may come at any list.
    NoMemory,
}

fn is_fault(event: &Event) -> bool
    ensures { result ≡ is_fault event.now.act }
{
    match &event.act {
        EventAct::Fault(_) => true,
        _ => false,
    }
}

// The place of the first fault entry.
fn first_fault(events: &[Event]) -> Option<usize>
    ensures found { IfSome result (λ index. IsFaultEntry events.now index) }
    ensures none { IfNone result (IsFailureFree events.now) }
{
    'entries: for (index, event) in events.iter().enumerate() {
        if is_fault(event) {
            return Some(index);
        }
    }
    None
}

// The refusal of a fault entry. There is no memory for so many entries that their number has more than 32 bits.
fn fault_at(index: usize) -> LiftNo
    ensures { (result ≡ LiftNo.Fault index) ⊎ (result ≡ LiftNo.NoMemory) }
{
    match u32::try_from(index) {
        Ok(index) => LiftNo::Fault { index },
        Err(_) => LiftNo::NoMemory,
    }
}

// A list again.
fn copy(alloc: Global, events: &[Event]) -> Result<Events, NoMemory>
    ensures { IfOk result (λ list. list ≡ events.now) }
{
    let mut list = Vec::new(alloc);
    'entries: for event in events {
        list.push(copy_event(alloc, event)?)?;
    }
    Ok(Events::from_vec(list))
}

// Makes the saves at which a thread stands.
fn save(alloc: Global, machine: &mut Machine, thread: u32) -> Result<(), NoMemory>
    ensures same { IfOk result (λ u. IsBeside machine.old machine.new) }
    ensures next { IfOk result (λ u. (events left : List Entry) (e : Entry) → e.thread ≡ thread → IsOnWay machine.old events (e ∷ left) → IsNext machine.new events e left) }
{
    let save = Event {
        thread,
        act: EventAct::Save,
    };
    'saves: loop {
        // They can be counted, and each turn makes one more.
        let _entries = machine.shared().trace().len();
        match machine.follow(alloc, &save) {
            Ok(()) => {}
            Err(FollowNo::NotAStep) => return Ok(()),
            Err(FollowNo::NoMemory) => return Err(NoMemory),
        }
    }
}

// Makes an entry, behind the saves at which its thread stands.
fn enter(alloc: Global, machine: &mut Machine, event: &Event) -> Result<(), NoMemory>
    requires { (events : List Entry) × (left : List Entry) × IsOnWay machine.old events (event.now ∷ left) }
    ensures same { IfOk result (λ u. IsBeside machine.old machine.new) }
    ensures on { IfOk result (λ u. (events left : List Entry) → IsOnWay machine.old events (event.now ∷ left) → IsOnWay machine.new events left) }
{
    match save(alloc, machine, event.thread) {
        Ok(()) => {}
        Err(NoMemory) => return Err(NoMemory),
    }
    let _reached = machine.shared();
    match machine.follow(alloc, event) {
        Ok(()) => Ok(()),
        Err(FollowNo::NotAStep) => unreachable!(),
        Err(FollowNo::NoMemory) => Err(NoMemory),
    }
}

// Makes the lifted list of some entries.
fn enter_all(alloc: Global, machine: &mut Machine, events: &[Event]) -> Result<(), NoMemory>
    requires { IsOnWay machine.old events.now events.now }
    ensures { IfOk result (λ u. IsLifted machine.old.source machine.old.plan events.now machine.new.trace) }
{
    'entries: for event in events {
        match enter(alloc, machine, event) {
            Ok(()) => {}
            Err(NoMemory) => return Err(NoMemory),
        }
    }
    Ok(())
}

// The lifted list of a list that has one.
fn lifted_list(
    alloc: Global,
    checked: &Checked,
    plan: &Plan,
    events: &[Event],
) -> Result<Events, NoMemory>
    requires fits { Fits checked.now.typed plan.now }
    requires lifted { (list : List Entry) × IsLifted checked.now.typed plan.now events.now list }
    ensures { IfOk result (λ list. IsLifted checked.now.typed plan.now events.now list) }
{
    let mut machine = match Machine::start(alloc, checked, plan) {
        Ok(machine) => machine,
        Err(NoMemory) => return Err(NoMemory),
    };
    match enter_all(alloc, &mut machine, events) {
        Ok(()) => {}
        Err(NoMemory) => return Err(NoMemory),
    }
    copy(alloc, machine.shared().trace())
}

// The answer for a list.
fn lifted(alloc: Global, checked: &Checked, plan: &Plan, events: &[Event]) -> Result<Events, LiftNo>
    requires { Fits checked.now.typed plan.now }
    ensures { IsLift checked.now.typed plan.now events.now result }
{
    the_empty_plan_is_sound();
    match check(alloc, checked, &Plan::empty(alloc), events) {
        Ok(_) => {}
        Err(CheckNo::NotARun { index }) => return Err(LiftNo::NotARun { index }),
        Err(CheckNo::NoMemory) => return Err(LiftNo::NoMemory),
    }
    match first_fault(events) {
        Some(index) => return Err(fault_at(index)),
        None => {}
    }
    match lifted_list(alloc, checked, plan, events) {
        Ok(list) => Ok(list),
        Err(NoMemory) => Err(LiftNo::NoMemory),
    }
}

/// The lifted list of a run of the source without a fault: the run with each save of the plan put directly before the
/// next entry of its thread. It is a run of the source under the plan, without retries, which leads to the same shared
/// state; its projection is the list handed in; and there is one such list. The entries are followed twice, without a
/// plan and under the plan, and under the plan a save is tried before each.
///
/// `NotARun` comes exactly as `check` refuses without a plan; `Fault` exactly where the list is a run of the source with a
/// fault entry there, which is its last. A machine takes no more than 4,000,000,000 entries: beyond them it is want of
/// memory.
pub fn lift(
    alloc: Global,
    checked: &Checked,
    plan: &Plan,
    events: &[Event],
) -> Result<Events, LiftNo>
    requires { Fits checked.now.typed plan.now }
    ensures lift { IsLift checked.now.typed plan.now events.now result }
    ensures ok { (list : List Entry) → IsLiftOf checked.now.typed plan.now events.now list → (result ≡ Ok list) ⊎ (result ≡ Err LiftNo.NoMemory) }
    ensures not_a_run { (index : ℕ) → IsFirstNoStep checked.now.typed no_plan events.now index → (result ≡ Err (LiftNo.NotARun index)) ⊎ (result ≡ Err LiftNo.NoMemory) }
    ensures fault { (index : ℕ) → IsFaultAt checked.now.typed events.now index → (result ≡ Err (LiftNo.Fault index)) ⊎ (result ≡ Err LiftNo.NoMemory) }
{
    lifted(alloc, checked, plan, events)
}
