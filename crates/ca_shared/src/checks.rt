//! Why an entry isn't legal.

ghost use Rattle.std.specs.Prelude.{◌≡◌, ◌<◌, ◌≤◌, ℕ, List, length, Option, Some, None, true};
ghost use Rattle.std.specs.FinMap as finite;
ghost use Rattle.std.specs.FinSet as set;
ghost use Rattle.ca_model.specs.Shared as shared;
ghost use Rattle.ca_memory.specs.Mutexes.{Mutexes};
ghost use Rattle.ca_memory.specs.Zeros.{start_of};
ghost use Rattle.ca_shared.specs.Refusals as refusals;
ghost use Rattle.ca_shared.specs.Refusals.{no_mutex};
ghost use Rattle.ca_shared.specs.Kept.{shared_of, ended_from};
ghost use Rattle.ca_shared.specs.Legal.{HasNumber, IsNumbered};

use crate::phase::Phase;
use crate::refusals::Illegal;
use crate::threads::{Progress, has_ended};
use ca_memory::{Bad, Memory, Owners};
use ca_model::{Addr, Event, EventAct, Given, Value};
use ca_tree::MutexId;

const MOST_CELLS: u32 = 1_048_576;

fn bad(at: Value) -> Illegal
    ensures { result ≡ refusals.bad at }
{
    Illegal::BadAddress(Bad { at, by: 0 })
}

fn of_read(memory: &Memory, at: Addr, value: Value) -> Option<Illegal>
    ensures { result ≡ refusals.of_read at value (shared.cell memory.now at.block at.offset) }
{
    match memory.load(Value::Addr(at), 0) {
        Ok(kept) => {
            if value == kept {
                None
            } else {
                Some(Illegal::OtherValue(kept))
            }
        }
        Err(_) => Some(bad(Value::Addr(at))),
    }
}

fn of_write(memory: &Memory, at: Addr) -> Option<Illegal>
    ensures { result ≡ refusals.of_write at (shared.cell memory.now at.block at.offset) }
{
    match memory.load(Value::Addr(at), 0) {
        Ok(_) => None,
        Err(_) => Some(bad(Value::Addr(at))),
    }
}

fn of_lock(owners: &Owners, m: MutexId) -> Option<Illegal>
    ensures { result ≡ refusals.if_mutex owners.now.count m (refusals.of_lock (finite.get owners.now.owners m.0)) }
{
    if m.0 >= owners.count() {
        return Some(Illegal::NoMutex(owners.count()));
    }
    match owners.owner(m) {
        Some(by) => Some(Illegal::OwnerIs(Some(by))),
        None => None,
    }
}

fn of_unlock(owners: &Owners, m: MutexId, t: u32) -> Option<Illegal>
    ensures { result ≡ refusals.if_mutex owners.now.count m (refusals.of_owner t (finite.get owners.now.owners m.0)) }
{
    if m.0 >= owners.count() {
        return Some(Illegal::NoMutex(owners.count()));
    }
    match owners.owner(m) {
        Some(by) => {
            if by == t {
                None
            } else {
                Some(Illegal::OwnerIs(Some(by)))
            }
        }
        None => Some(Illegal::OwnerIs(None)),
    }
}

fn of_malloc(memory: &Memory, cells: i64, at: Value) -> Option<Illegal>
    ensures why { result ≡ refusals.of_malloc memory.now cells at }
    ensures numbered { HasNumber at }
{
    let a = match at {
        Value::Num(0) => return None,
        Value::Num(_) => return Some(Illegal::BadMalloc { cells, at }),
        Value::Addr(a) => a,
    };
    if a.offset != 0 || cells < 1 {
        return Some(Illegal::BadMalloc { cells, at });
    }
    if memory.is_used(a.block) {
        return Some(Illegal::BlockUsed(a.block));
    }
    if cells as u64 + u64::from(memory.live_cells()) > u64::from(MOST_CELLS) {
        return Some(Illegal::HeapFull(memory.live_cells()));
    }
    None
}

fn of_free(memory: &Memory, at: Value) -> Option<Illegal>
    ensures { result ≡ refusals.of_free memory.now at }
{
    if memory.can_release(at) {
        None
    } else {
        Some(bad(at))
    }
}

fn of_create(threads: &[Progress], u: u32) -> Option<Illegal>
    requires { length threads.now ≤ 64 }
    ensures { result ≡ refusals.of_create (length threads.now) u }
{
    if u as usize == threads.len() && u < 64 {
        None
    } else {
        Some(Illegal::ThreadsAre(threads.len() as u32))
    }
}

fn of_join(threads: &[Progress], u: u32) -> Option<Illegal>
    requires { length threads.now ≤ 64 }
    ensures { result ≡ refusals.of_join (length threads.now) u (set.contains (ended_from 0 threads.now) u) }
{
    if u as usize >= threads.len() {
        return Some(Illegal::ThreadsAre(threads.len() as u32));
    }
    if has_ended(threads, u) {
        None
    } else {
        Some(Illegal::NotEnded(u))
    }
}

// A mutex that isn't there, or has another owner.
fn no_mutex(owners: &Owners, m: MutexId, owner: Option<u32>) -> Illegal
    ensures { result ≡ no_mutex owners.now.count m owner }
{
    if m.0 >= owners.count() {
        Illegal::NoMutex(owners.count())
    } else {
        Illegal::OwnerIs(owner)
    }
}

fn no_block(block: u32) -> Illegal
    ensures { result ≡ refusals.bad (start_of block) }
{
    bad(Value::Addr(Addr { block, offset: 0 }))
}

// The first thing of a list that can't be given back.
fn of_things(memory: &mut Memory, owners: &mut Owners, t: u32, things: &[Given]) -> Option<Illegal>
    ensures memory { memory.new ≡ memory.old }
    ensures owners { owners.new ≡ owners.old }
    ensures why { (output : List ℕ) (threads : List Progress) (p : Phase) →
        result ≡ refusals.of_things (shared_of memory.old owners.old output threads p) t things.now }
{
    match memory.first_not_held(things) {
        Some(block) => match owners.first_not_held(t, &things[..block.place]) {
            Some(mutex) => Some(no_mutex(owners, mutex.mutex, mutex.owner)),
            None => Some(no_block(block.block)),
        },
        None => match owners.first_not_held(t, things) {
            Some(mutex) => Some(no_mutex(owners, mutex.mutex, mutex.owner)),
            None => None,
        },
    }
}

// The entry's own reasons.
fn of_act(
    memory: &mut Memory,
    owners: &mut Owners,
    threads: &[Progress],
    t: u32,
    act: &EventAct,
) -> Option<Illegal>
    requires { length threads.now ≤ 64 }
    ensures memory { memory.new ≡ memory.old }
    ensures owners { owners.new ≡ owners.old }
    ensures why { (output : List ℕ) (p : Phase) →
        result ≡ refusals.of_act (shared_of memory.old owners.old output threads.now p) t act.now }
    ensures numbered { IsNumbered act.now }
{
    match act {
        EventAct::Read { at, value } => of_read(memory, *at, *value),
        EventAct::Write { at, .. } => of_write(memory, *at),
        EventAct::Lock(m) => of_lock(owners, *m),
        EventAct::Unlock(m) => of_unlock(owners, *m, t),
        EventAct::Malloc { cells, at } => of_malloc(memory, *cells, *at),
        EventAct::Free { at } => of_free(memory, *at),
        EventAct::Create(u) => of_create(threads, *u),
        EventAct::Join(u) => of_join(threads, *u),
        EventAct::Retry { gives, .. } => of_things(memory, owners, t, gives.as_slice()),
        EventAct::Print(_) => None,
        EventAct::Call(_) => None,
        EventAct::Return(_) => None,
        EventAct::Turn => None,
        EventAct::End => None,
        EventAct::Fault(_) => None,
        EventAct::Save => None,
    }
}

/// Why an entry isn't legal: the first reason that holds.
pub(crate) fn refusal(
    memory: &mut Memory,
    owners: &mut Owners,
    threads: &[Progress],
    phase: Phase,
    event: &Event,
) -> Option<Illegal>
    requires { length threads.now ≤ 64 }
    ensures memory { memory.new ≡ memory.old }
    ensures owners { owners.new ≡ owners.old }
    ensures why { (output : List ℕ) →
        result ≡ refusals.refusal (shared_of memory.old owners.old output threads.now phase) event.now }
    ensures numbered { result ≡ None → IsNumbered event.now.act }
{
    if phase != Phase::Open {
        return Some(Illegal::RunEnded);
    }
    if event.thread as usize >= threads.len() {
        return Some(Illegal::NoThread);
    }
    if has_ended(threads, event.thread) {
        return Some(Illegal::ThreadEnded);
    }
    of_act(memory, owners, threads, event.thread, &event.act)
}
