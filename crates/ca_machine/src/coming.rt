//! The entry that comes for a thread, over the parts of a machine.

ghost use Rattle.std.specs.Prelude.{◌≡◌, ◌<◌, ◌^◌, ◌↔◌, ℕ, IfOk, IsTrue};
ghost use Rattle.ca_model.specs.Hardened.{Hardened, hardened, HardenedDue};
ghost use Rattle.ca_model.specs.Machine.{State};
ghost use Rattle.ca_model.specs.Runner.{IsLeastUnused};
ghost use Rattle.ca_model.specs.ComingEntries as coming;
ghost use Rattle.ca_entries.specs.Shares.{IsSharedBy, IsJoined, HasEnded};
ghost use Rattle.ca_flow.specs.Lowerings.{rules_of};
ghost use Rattle.ca_shared.specs.Histories.{state};
ghost use Rattle.ca_shared.specs.Legal.{IsWellKept};
ghost use Rattle.ca_machine.specs.Machines.{IsAt, AreParts, StandAs};
ghost use Rattle.ca_machine.specs.Moves.{IsEntry, IsJudged};
ghost use Rattle.ca_machine.specs.Coming.{IsRunning, IsStatus, IsStatusOf, IsComing};

use ca_entries::{Parts, comes, entry, times_out};
use ca_flow::Code;
use ca_model::{Event, EventAct};
use ca_shared::{Phase, Shared, legal_entries_keep_numbers};
use ca_thread::{Next, Private};
use ca_tree::NoMemory;
use std::alloc::Global;

/// What a thread may do.
#[derive(Clone, Copy, Debug, PartialEq, Eq)]
pub(crate) enum Status {
    /// No entry comes.
    Rests,
    Moves,
    /// It may go back at a held lock.
    TimesOut,
}

/// The least number of a block that was never used. The second clause is what each shared state keeps.
pub(crate) fn least_block(shared: &Shared) -> u32
    ensures least { IsLeastUnused (state shared.now).blocks result }
    ensures few { result < 2 ^ 32 }
    ensures kept { IsWellKept (state shared.now) }
{
    let _trace = shared.trace();
    legal_entries_keep_numbers();
    shared.memory().next_block()
}

// Whether the thread of a number has ended.
fn has_ended(shared: &Shared, number: i32) -> bool
    ensures { HasEnded (state shared.now) number result }
{
    let _least = least_block(shared);
    if number < 0 {
        return false;
    }
    let thread = number as u32;
    if thread >= shared.threads() {
        return false;
    }
    shared.has_ended(thread)
}

// Whether the thread that is joined has ended.
fn joined_ended(shared: &Shared, next: Next<'_>) -> bool
    ensures { IsJoined (state shared.now) next.entry result }
{
    match next {
        Next::Join(number) => has_ended(shared, number),
        _ => false,
    }
}

// The parts of the shared state by which entries come.
fn parts(shared: &Shared) -> Parts<'_>
    ensures { IsSharedBy (state shared.now) result.memory.now result.owners.now result.threads }
{
    Parts {
        memory: shared.memory(),
        owners: shared.owners(),
        threads: shared.threads(),
    }
}

// The entry that comes for a thread, if one does.
fn entry_of(
    alloc: Global,
    code: &Code,
    shared: &Shared,
    own: &Private,
) -> Result<Option<EventAct>, NoMemory>
    requires { code.now ≡ own.now.code }
    ensures { IfOk result (λ a. (h : Hardened) (k : ℕ) → IsAt own.now h → IsLeastUnused (state shared.now).blocks k → a ≡ coming.entry_of (rules_of own.now.code) (state shared.now) own.now.thread k h) }
{
    let next = own.next(code);
    let joined = joined_ended(shared, next);
    let retry = own.can_retry(code);
    match entry(
        alloc,
        parts(shared),
        own.thread(),
        next,
        joined,
        retry,
        own.taken(),
    ) {
        Ok(act) => Ok(act),
        Err(NoMemory) => Err(NoMemory),
    }
}

// Whether it is a fault or a retry, which comes only where it is due.
fn is_judged(act: &EventAct) -> bool
    ensures { IsTrue result ↔ IsJudged act.now }
{
    match act {
        EventAct::Fault(_) => true,
        EventAct::Retry { .. } => true,
        _ => false,
    }
}

/// Whether the shared state gives a thread an entry that it allows: of faults and retries it gives the one that comes.
pub(crate) fn is_due(
    alloc: Global,
    code: &Code,
    shared: &Shared,
    own: &Private,
    event: &Event,
) -> Result<bool, NoMemory>
    requires { code.now ≡ own.now.code }
    ensures { IfOk result (λ b. (h : Hardened) → IsAt own.now h → IsEntry (state shared.now) own.now h event.now → (IsTrue b ↔ HardenedDue (rules_of own.now.code) (state shared.now) event.now.thread h event.now.act)) }
{
    if !is_judged(&event.act) {
        return Ok(true);
    }
    let _least = least_block(shared);
    match entry_of(alloc, code, shared, own) {
        Ok(Some(act)) => Ok(act == event.act),
        Ok(None) => Ok(false),
        Err(NoMemory) => Err(NoMemory),
    }
}

// What a thread may do, as far as its program and the shared state go.
fn status_of(code: &Code, shared: &Shared, own: &Private) -> Status
    requires { code.now ≡ own.now.code }
    ensures { (h : Hardened) (k : ℕ) → IsAt own.now h → IsStatus (coming.entry_of (rules_of own.now.code) (state shared.now) own.now.thread k h) ((hardened (rules_of own.now.code)).want h) result }
{
    let next = own.next(code);
    let joined = joined_ended(shared, next);
    let retry = own.can_retry(code);
    if comes(parts(shared), next, joined, retry) {
        if times_out(parts(shared), next, retry) {
            return Status::TimesOut;
        }
        return Status::Moves;
    }
    Status::Rests
}

// Whether entries of a thread may come: the run is open, and the thread is there and hasn't ended.
pub(crate) fn is_running(shared: &Shared, thread: u32) -> bool
    ensures { (s : State Hardened) → s.shared ≡ state shared.now → (IsTrue result ↔ IsRunning s thread) }
{
    match shared.phase() {
        Phase::Open => thread < shared.threads() && !shared.has_ended(thread),
        _ => false,
    }
}

/// What a thread may do. It takes no memory.
pub(crate) fn thread_status(
    code: &Code,
    shared: &Shared,
    privates: &[Private],
    thread: u32,
) -> Status
    requires { AreParts code.now shared.now privates.now }
    ensures { (events patience : ℕ) (s : State Hardened) → StandAs code.now shared.now privates.now s → IsStatusOf (rules_of code.now) events patience s thread result }
{
    let _least = least_block(shared);
    if !is_running(shared, thread) {
        return Status::Rests;
    }
    status_of(code, shared, &privates[thread as usize])
}

/// The event that comes for a thread, if one does.
pub(crate) fn coming_event(
    alloc: Global,
    code: &Code,
    shared: &Shared,
    privates: &[Private],
    thread: u32,
) -> Result<Option<Event>, NoMemory>
    requires { AreParts code.now shared.now privates.now }
    ensures { IfOk result (λ e. (events patience : ℕ) (s : State Hardened) → StandAs code.now shared.now privates.now s → IsComing (rules_of code.now) events patience s thread e) }
{
    let _least = least_block(shared);
    if !is_running(shared, thread) {
        return Ok(None);
    }
    match entry_of(alloc, code, shared, &privates[thread as usize]) {
        Ok(Some(act)) => Ok(Some(Event { thread, act })),
        Ok(None) => Ok(None),
        Err(NoMemory) => Err(NoMemory),
    }
}
