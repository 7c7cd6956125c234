//! Steps, over the parts of a machine.

ghost use Rattle.std.specs.Prelude.{◌≡◌, Option, IfOk, IfErr};
ghost use Rattle.ca_model.specs.Hardened.{Hardened, hardened};
ghost use Rattle.ca_model.specs.declared.values.Event.{Event};
ghost use Rattle.ca_model.specs.Machine.{State, Step, created};
ghost use Rattle.ca_flow.specs.Lowerings.{rules_of};
ghost use Rattle.ca_shared.specs.Histories.{state, appended};
ghost use Rattle.ca_machine.specs.Machines.{IsAt, went_on, AreParts, StandAs, CanCreate};
ghost use Rattle.ca_machine.specs.Moves.{Decides, IsOwn, IsEntry, IsMove, AreMade, number_of};

use crate::coming::is_due;
use ca_flow::Code;
use ca_model::{Event, EventAct};
use ca_shared::{AppendNo, Shared};
use ca_thread::{AdvanceNo, Next, Private, copy_event};
use ca_tree::NoMemory;
use std::alloc::Global;

/// Why an event isn't made.
#[derive(Clone, Copy, Debug, PartialEq, Eq)]
pub enum FollowNo {
    /// No step from here makes it.
    NotAStep,
    NoMemory,
}

// The thread that an entry makes, at its start.
fn made_by(
    alloc: Global,
    code: &Code,
    own: &Private,
    event: &Event,
) -> Result<Option<Private>, NoMemory>
    requires code { code.now ≡ own.now.code }
    requires named { CanCreate own.now }
    ensures { IfOk result (λ made. (h : Hardened) → IsAt own.now h → IsOwn own.now h event.now →
        AreMade code.now (number_of event.now.act) (created (hardened (rules_of code.now)) event.now.act ((hardened (rules_of code.now)).want h)) made) }
{
    let EventAct::Create(number) = &event.act else {
        return Ok(None);
    };
    let number = *number;
    if number == 0 {
        return Ok(None);
    }
    match own.next(code) {
        Next::Create { function, argument } => {
            match Private::start(alloc, code, number, function, argument) {
                Ok(made) => Ok(Some(made)),
                Err(NoMemory) => Err(NoMemory),
            }
        }
        _ => Ok(None),
    }
}

// Appends an entry to those of its thread and to the trace; where either refuses it, all stays but what is prepared.
fn append(
    alloc: Global,
    code: &Code,
    shared: &mut Shared,
    own: &mut Private,
    event: &Event,
) -> Result<(), FollowNo>
    requires { code.now ≡ own.old.code }
    ensures made { IfOk result (λ u. (shared.new ≡ appended shared.old event.now) × (own.new ≡ went_on own.old event.now)) }
    ensures kept { IfErr result (λ no. (shared.new ≡ shared.old) × ((e : Option Event) × (own.new ≡ record own.old { prepared = e }))) }
    ensures exact { (h : Hardened) → IsAt own.old h → Decides result (IsEntry (state shared.old) own.old h event.now) }
{
    let entry = match copy_event(alloc, event) {
        Ok(entry) => entry,
        Err(NoMemory) => return Err(FollowNo::NoMemory),
    };
    match own.prepare(code, event) {
        Ok(()) => {}
        Err(AdvanceNo::NotNext) => return Err(FollowNo::NotAStep),
        Err(AdvanceNo::NoMemory) => return Err(FollowNo::NoMemory),
    }
    match shared.append(alloc, entry) {
        Ok(()) => {}
        Err(AppendNo::Illegal(_)) => return Err(FollowNo::NotAStep),
        Err(AppendNo::NoMemory) => return Err(FollowNo::NoMemory),
    }
    match own.advance(code, event) {
        Ok(()) => Ok(()),
        Err(_) => unreachable!(),
    }
}

// Takes an entry into the private state of its thread and into the trace, and gives the thread that it makes; where the
// entry is refused, all stays but what is prepared.
fn take(
    alloc: Global,
    code: &Code,
    shared: &mut Shared,
    own: &mut Private,
    event: &Event,
) -> Result<Option<Private>, FollowNo>
    requires code { code.now ≡ own.old.code }
    requires named { CanCreate own.old }
    ensures made { IfOk result (λ made. (shared.new ≡ appended shared.old event.now) × (own.new ≡ went_on own.old event.now)) }
    ensures thread { IfOk result (λ made. (h : Hardened) → IsAt own.old h → IsOwn own.old h event.now →
        AreMade code.now (number_of event.now.act) (created (hardened (rules_of code.now)) event.now.act ((hardened (rules_of code.now)).want h)) made) }
    ensures kept { IfErr result (λ no. (shared.new ≡ shared.old) × ((e : Option Event) × (own.new ≡ record own.old { prepared = e }))) }
    ensures exact { (h : Hardened) → IsAt own.old h → Decides result (IsMove (state shared.old) own.old h event.now) }
{
    let due = match is_due(alloc, code, shared, own, event) {
        Ok(due) => due,
        Err(NoMemory) => return Err(FollowNo::NoMemory),
    };
    if !due {
        return Err(FollowNo::NotAStep);
    }
    let made = match made_by(alloc, code, own, event) {
        Ok(made) => made,
        Err(NoMemory) => return Err(FollowNo::NoMemory),
    };
    match append(alloc, code, shared, own, event) {
        Ok(()) => Ok(made),
        Err(no) => Err(no),
    }
}

/// Makes an event, in the parts of a machine. After a refusal the shared state is as it was.
pub(crate) fn enter(
    alloc: Global,
    code: &Code,
    shared: &mut Shared,
    privates: &mut Vec<Private>,
    event: &Event,
) -> Result<(), FollowNo>
    requires { AreParts code.now shared.old privates.old.items }
    ensures made { IfOk result (λ u. shared.new ≡ appended shared.old event.now) }
    ensures kept { IfErr result (λ no. shared.new ≡ shared.old) }
    ensures parts { AreParts code.now shared.new privates.new.items }
    ensures exact { (s : State Hardened) → StandAs code.now shared.old privates.old.items s → Decides result ((new : State Hardened) × Step (hardened (rules_of code.now)) s event.now new) }
{
    let _graphs = code.graphs();
    let thread = event.thread as usize;
    if thread >= privates.len() {
        return Err(FollowNo::NotAStep);
    }
    match privates.reserve(1) {
        Ok(()) => {}
        Err(_) => return Err(FollowNo::NoMemory),
    }
    let made = match take(alloc, code, shared, &mut privates[thread], event) {
        Ok(made) => made,
        Err(no) => return Err(no),
    };
    let Some(made) = made else {
        return Ok(());
    };
    privates.push_reserved(made);
    Ok(())
}
