//! The entry that comes for a thread.

ghost use Rattle.std.specs.Prelude.{◌≡◌, ◌↔◌, ℕ, List, cond, is_some, IsTrue, Option, Some, IfOk};
ghost use Rattle.std.specs.FinMap as finite;
ghost use Rattle.std.specs.FinSet as set;
ghost use Rattle.ca_tree.specs.declared.numbers.SiteId.{SiteId};
ghost use Rattle.ca_model.specs.declared.values.EventAct.{EventAct};
ghost use Rattle.ca_model.specs.declared.values.FaultKind.{FaultKind as Fault};
ghost use Rattle.ca_model.specs.declared.values.Given.{Given as Thing};
ghost use Rattle.ca_model.specs.Shared as shared;
ghost use Rattle.ca_model.specs.Shared.{Shared};
ghost use Rattle.ca_model.specs.Asks.{Want};
ghost use Rattle.ca_model.specs.Runner.{IsLeastUnused, IsTimeout};
ghost use Rattle.ca_model.specs.ComingEntries as coming;
ghost use Rattle.ca_wants.specs.Shown.{Shows};
ghost use Rattle.ca_memory.specs.Zeros.{IsNear};
ghost use Rattle.ca_entries.specs.Shares.{IsSharedBy, HasEnded, IsJoined, given_back, or_that};

use crate::rollback::gives;
use ca_memory::{Memory, Owners};
use ca_model::{Addr, EventAct, FaultKind, Given, LoadKind, Value};
use ca_tree::{Listed, MutexId, NoMemory, SiteId};
use ca_values::suits;
use ca_wants::Next;
use std::alloc::Global;

const MOST_CELLS: u64 = 1048576;

const MOST_THREADS: u32 = 64;

/// What entries hang on in the shared state: its blocks, the owners of its mutexes, and the number of its threads.
#[derive(Clone, Copy)]
pub struct Parts<'a> {
    pub memory: &'a Memory,
    pub owners: &'a Owners,
    pub threads: u32,
}

// The address of an access to a cell that is there.
fn address(at: Value, by: i64) -> Addr
    requires { IsNear at by }
    ensures { result ≡ coming.aimed at by }
{
    match at {
        Value::Addr(a) => Addr {
            block: a.block,
            offset: (i64::from(a.offset) + by) as i32,
        },
        Value::Num(_) => Addr {
            block: 0,
            offset: 0,
        },
    }
}

// A read of a cell that is there; none where there is no such cell.
fn read_entry(memory: &Memory, at: Value, by: i64, kind: LoadKind) -> Option<EventAct>
    ensures { (missing : EventAct) → coming.read_entry (coming.aimed at by) kind (shared.reached memory.now at by) missing ≡ or_that result missing }
{
    let Ok(value) = memory.load(at, by) else {
        return None;
    };
    if suits(kind, value) {
        Some(EventAct::Read {
            at: address(at, by),
            value,
        })
    } else {
        Some(EventAct::Fault(FaultKind::Kind))
    }
}

// Likewise a write.
fn write_entry(memory: &Memory, at: Value, by: i64, value: Value) -> Option<EventAct>
    ensures { (missing : EventAct) → coming.write_entry (coming.aimed at by) value (shared.reached memory.now at by) missing ≡ or_that result missing }
{
    match memory.load(at, by) {
        Ok(_) => Some(EventAct::Write {
            at: address(at, by),
            value,
        }),
        Err(_) => None,
    }
}

// The value of a `malloc` (C11 7.22.3).
fn malloc_value(memory: &Memory, cells: i64) -> Value
    ensures { (k : ℕ) → IsLeastUnused memory.now k → result ≡ coming.given_value memory.now k cells }
{
    if cells < 1 || cells as u64 + u64::from(memory.live_cells()) > MOST_CELLS {
        return Value::Num(0);
    }
    Value::Addr(Addr {
        block: memory.next_block(),
        offset: 0,
    })
}

// An unlock by the owner (POSIX `pthread_mutex_unlock`).
fn unlock_entry(owners: &Owners, thread: u32, m: MutexId) -> EventAct
    ensures { result ≡ cond (coming.is_owner thread (finite.get owners.now.owners m.0)) (EventAct.Unlock m) (EventAct.Fault Fault.Mutex) }
{
    if owners.owner_if_there(m) == Some(thread) {
        EventAct::Unlock(m)
    } else {
        EventAct::Fault(FaultKind::Mutex)
    }
}

// A create while there are fewer than 64 threads.
fn create_entry(threads: u32) -> Option<EventAct>
    ensures { result ≡ coming.create_entry threads }
{
    if threads < MOST_THREADS {
        Some(EventAct::Create(threads))
    } else if threads == MOST_THREADS {
        Some(EventAct::Fault(FaultKind::Thread))
    } else {
        None
    }
}

// A join of a thread, which has ended or not; none of one that hasn't (POSIX `pthread_join`).
fn join_entry(threads: u32, number: i32, ended: bool) -> Option<EventAct>
    ensures { (g : Shared) → g.threads ≡ threads → HasEnded g number ended → result ≡ coming.join_entry g number }
{
    if number < 1 || number as u32 >= threads {
        return Some(EventAct::Fault(FaultKind::Thread));
    }
    if ended {
        Some(EventAct::Join(number as u32))
    } else {
        None
    }
}

// A retry where there is a site for it, and else a fault.
fn failing(
    alloc: Global,
    parts: Parts<'_>,
    thread: u32,
    kind: FaultKind,
    retry: Option<SiteId>,
    taken: &[Given],
) -> Result<EventAct, NoMemory>
    ensures { IfOk result (λ a. (g : Shared) → IsSharedBy g parts.entry.memory.now parts.entry.owners.now parts.entry.threads → a ≡ coming.failing retry kind (given_back g thread taken.now)) }
{
    let Some(site) = retry else {
        return Ok(EventAct::Fault(kind));
    };
    let gives = gives(alloc, parts, thread, taken)?;
    Ok(EventAct::Retry { site, gives })
}

// A retry, if there is a site for it.
fn retrying(
    alloc: Global,
    parts: Parts<'_>,
    thread: u32,
    retry: Option<SiteId>,
    taken: &[Given],
) -> Result<Option<EventAct>, NoMemory>
    ensures { IfOk result (λ a. (g : Shared) → IsSharedBy g parts.entry.memory.now parts.entry.owners.now parts.entry.threads → a ≡ coming.retrying retry (given_back g thread taken.now)) }
{
    let Some(site) = retry else {
        return Ok(None);
    };
    let gives = gives(alloc, parts, thread, taken)?;
    Ok(Some(EventAct::Retry { site, gives }))
}

// The bytes of a print as a list of its own.
fn print_entry(alloc: Global, text: &[u8]) -> Result<EventAct, NoMemory>
    ensures { IfOk result (λ a. a ≡ EventAct.Print text.now) }
{
    let mut bytes = Vec::new(alloc);
    bytes.extend_from_slice(text)?;
    Ok(EventAct::Print(Listed::from_vec(bytes)))
}

// A `free` of what can be freed (C11 7.22.3.3).
fn free_entry(memory: &Memory, at: Value) -> Option<EventAct>
    ensures { (missing : EventAct) → cond (coming.can_free memory.now at) (EventAct.Free at) missing ≡ or_that result missing }
{
    if memory.can_release(at) {
        Some(EventAct::Free { at })
    } else {
        None
    }
}

// An access or a `free`; where it has no entry, its failing.
fn or_failing(
    alloc: Global,
    parts: Parts<'_>,
    thread: u32,
    found: Option<EventAct>,
    retry: Option<SiteId>,
    taken: &[Given],
) -> Result<EventAct, NoMemory>
    ensures { IfOk result (λ a. (g : Shared) → IsSharedBy g parts.entry.memory.now parts.entry.owners.now parts.entry.threads
        → a ≡ or_that found (coming.failing retry Fault.Pointer (given_back g thread taken.now))) }
{
    match found {
        Some(act) => Ok(act),
        None => {
            let act = failing(alloc, parts, thread, FaultKind::Pointer, retry, taken)?;
            Ok(act)
        }
    }
}

/// The entry that comes for a thread, by what it stands at, the site at which it may retry and what it has taken since its
/// save; none where it waits or has ended. At a join it hangs on whether that thread has ended.
pub fn entry(
    alloc: Global,
    parts: Parts<'_>,
    thread: u32,
    next: Next<'_>,
    joined_ended: bool,
    retry: Option<SiteId>,
    taken: &[Given],
) -> Result<Option<EventAct>, NoMemory>
    ensures { IfOk result (λ a. (g : Shared) (k : ℕ) (w : Want) → IsSharedBy g parts.entry.memory.now parts.entry.owners.now parts.entry.threads → IsJoined g next.entry joined_ended → IsLeastUnused g.blocks k → Shows next.entry w retry
        → a ≡ coming.the_entry g thread k retry (given_back g thread taken.now) w) }
{
    match next {
        Next::Read { at, by, kind } => {
            let found = read_entry(parts.memory, at, by, kind);
            let act = or_failing(alloc, parts, thread, found, retry, taken)?;
            Ok(Some(act))
        }
        Next::Write { at, by, value } => {
            let found = write_entry(parts.memory, at, by, value);
            let act = or_failing(alloc, parts, thread, found, retry, taken)?;
            Ok(Some(act))
        }
        Next::Free { at } => {
            let found = free_entry(parts.memory, at);
            let act = or_failing(alloc, parts, thread, found, retry, taken)?;
            Ok(Some(act))
        }
        Next::Lock(m) => {
            if parts.owners.owner_if_there(m).is_some() {
                let act = retrying(alloc, parts, thread, retry, taken)?;
                return Ok(act);
            }
            if m.0 < parts.owners.count() {
                Ok(Some(EventAct::Lock(m)))
            } else {
                Ok(None)
            }
        }
        Next::Unlock(m) => Ok(Some(unlock_entry(parts.owners, thread, m))),
        Next::Malloc { cells } => Ok(Some(EventAct::Malloc {
            cells,
            at: malloc_value(parts.memory, cells),
        })),
        Next::Print(text) => {
            let act = print_entry(alloc, text)?;
            Ok(Some(act))
        }
        Next::Create { .. } => Ok(create_entry(parts.threads)),
        Next::Join(number) => Ok(join_entry(parts.threads, number, joined_ended)),
        Next::Call(f) => Ok(Some(EventAct::Call(f))),
        Next::Return(x) => Ok(Some(EventAct::Return(x))),
        Next::Turn => Ok(Some(EventAct::Turn)),
        Next::End => Ok(Some(EventAct::End)),
        Next::Fault(kind) => Ok(Some(EventAct::Fault(kind))),
        Next::Save => Ok(Some(EventAct::Save)),
        Next::Retry(_) => {
            let act = retrying(alloc, parts, thread, retry, taken)?;
            Ok(act)
        }
        Next::Ended => Ok(None),
    }
}

/// Whether an entry comes for a thread, by what it stands at and the site at which it may retry. It takes no memory.
pub fn comes(parts: Parts<'_>, next: Next<'_>, joined_ended: bool, retry: Option<SiteId>) -> bool
    ensures { (g : Shared) (t k : ℕ) (gives : List Thing) (w : Want) → IsSharedBy g parts.entry.memory.now parts.entry.owners.now parts.entry.threads → IsJoined g next.entry joined_ended → Shows next.entry w retry
        → result ≡ is_some (coming.the_entry g t k retry gives w) }
{
    match next {
        Next::Lock(m) => {
            if parts.owners.owner_if_there(m).is_some() {
                retry.is_some()
            } else {
                m.0 < parts.owners.count()
            }
        }
        Next::Create { .. } => create_entry(parts.threads).is_some(),
        Next::Join(number) => join_entry(parts.threads, number, joined_ended).is_some(),
        Next::Ended => false,
        _ => true,
    }
}

/// Whether the entry that comes for a thread is a retry at a held lock. It takes no memory.
pub fn times_out(parts: Parts<'_>, next: Next<'_>, retry: Option<SiteId>) -> bool
    ensures { (g : Shared) (t k : ℕ) (gives : List Thing) (w : Want) (a : EventAct) → IsSharedBy g parts.entry.memory.now parts.entry.owners.now parts.entry.threads → Shows next.entry w retry
        → coming.the_entry g t k retry gives w ≡ Some a → (IsTrue result ↔ IsTimeout a w) }
{
    match next {
        Next::Lock(m) => parts.owners.owner_if_there(m).is_some() && retry.is_some(),
        _ => false,
    }
}
