//! The effects of legal entries.

ghost use Rattle.std.specs.Prelude.{◌≡◌, ◌<◌, ◌≤◌, ◌++◌, ◌∷◌, [], ℕ, List, length, Option, Some, None, IsSome, OnOk, OnErr};
ghost use Rattle.std.specs.FinMap as finite;
ghost use Rattle.ca_model.specs.Shared as shared;
ghost use Rattle.ca_memory.specs.GivenBack.{IsBlockHeld, IsMutexHeld, AreBlocksHeld, AreMutexesHeld, blocks_without, owners_without, blocks_without_all, owners_without_all};
ghost use Rattle.ca_shared.specs.Refusals as refusals;
ghost use Rattle.ca_shared.specs.Kept.{shared_of, phase_of, begun, flagged, threads_after};

use crate::phase::Phase;
use crate::threads::{Depth, Progress};
use ca_memory::{Memory, Owners};
use ca_model::{Addr, EventAct, Given, Value};
use ca_tree::{MutexId, NoMemory};
use std::alloc::Global;

fn write(memory: &mut Memory, at: Addr, value: Value)
    requires { IsSome (shared.cell memory.old at.block at.offset) }
    ensures { memory.new ≡ shared.with_cell memory.old at value }
{
    match memory.store(Value::Addr(at), 0, value) {
        Ok(()) => {}
        Err(_) => {}
    }
}

fn lock(owners: &mut Owners, m: MutexId, t: u32)
    requires within { m.0 < owners.old.count }
    requires free { finite.get owners.old.owners m.0 ≡ None }
    ensures { owners.new ≡ record owners.old { owners = finite.insert owners.old.owners m.0 t } }
{
    match owners.take(m, t) {
        Ok(()) => {}
        Err(_) => {}
    }
}

fn unlock(owners: &mut Owners, m: MutexId, t: u32)
    requires within { m.0 < owners.old.count }
    requires owned { finite.get owners.old.owners m.0 ≡ Some t }
    ensures { owners.new ≡ record owners.old { owners = finite.remove owners.old.owners m.0 } }
{
    match owners.give(m, t) {
        Ok(()) => {}
        Err(_) => {}
    }
}

fn malloc(alloc: Global, memory: &mut Memory, cells: i64, at: Value) -> Result<(), NoMemory>
    requires { refusals.of_malloc memory.old cells at ≡ None }
    ensures ok { OnOk result (memory.new ≡ shared.made memory.old cells at) }
    ensures err { OnErr result (memory.new ≡ memory.old) }
{
    let Value::Addr(a) = at else {
        return Ok(());
    };
    if memory.made() == u32::MAX {
        return Err(NoMemory);
    }
    memory.allocate(alloc, cells as u32, a.block)
}

fn free(memory: &mut Memory, at: Value)
    requires { shared.CanFree memory.old at }
    ensures { memory.new ≡ shared.freed memory.old at }
{
    match memory.release(at) {
        Ok(()) => {}
        Err(_) => {}
    }
}

fn print(output: &mut Vec<u8>, text: &[u8]) -> Result<(), NoMemory>
    ensures ok { OnOk result (output.new.items ≡ output.old.items ++ text.now) }
    ensures err { OnErr result (output.new.items ≡ output.old.items) }
{
    match output.extend_from_slice(text) {
        Ok(()) => Ok(()),
        Err(_) => Err(NoMemory),
    }
}

fn create(threads: &mut Vec<Progress>, place: u32) -> Result<(), NoMemory>
    ensures ok { OnOk result (threads.new.items ≡ threads.old.items ++ begun place ∷ []) }
    ensures err { OnErr result (threads.new.items ≡ threads.old.items) }
{
    let thread = Progress {
        ended: false,
        depth: Depth {
            now: 1,
            saved: None,
        },
        last: place,
    };
    match threads.push(thread) {
        Ok(()) => Ok(()),
        Err(_) => Err(NoMemory),
    }
}

fn end(threads: &mut Vec<Progress>, t: u32)
    requires { t < length threads.old.items }
    ensures { threads.new.items ≡ flagged threads.old.items t }
{
    threads[t as usize].ended = true;
}

fn phase_after_end(phase: Phase, t: u32) -> Phase
    ensures { phase_of result ≡ shared.ended_phase t (phase_of phase) }
{
    if t == 0 { Phase::Finished } else { phase }
}

// One thing that a thread still has is given back.
fn give(memory: &mut Memory, owners: &mut Owners, t: u32, thing: Given)
    requires block { IsBlockHeld memory.old thing }
    requires mutex { IsMutexHeld owners.old t thing }
    ensures blocks { memory.new ≡ blocks_without memory.old thing }
    ensures owners { owners.new ≡ owners_without owners.old thing }
{
    match thing {
        Given::Mutex(m) => unlock(owners, m, t),
        Given::Block(block) => free(memory, Value::Addr(Addr { block, offset: 0 })),
    }
}

// Things that a thread still has are given back, one after another.
fn give_all(memory: &mut Memory, owners: &mut Owners, t: u32, things: &[Given])
    requires blocks { AreBlocksHeld memory.old things.now }
    requires mutexes { AreMutexesHeld owners.old t things.now }
    ensures blocks { memory.new ≡ blocks_without_all memory.old things.now }
    ensures owners { owners.new ≡ owners_without_all owners.old things.now }
{
    let mut index = 0usize;
    'things: while index < things.len() {
        let thing = things[index];
        give(memory, owners, t, thing);
        index += 1;
    }
}

/// Makes the effect of a legal entry, which is the last of so many. Where memory is wanted, nothing has changed.
pub(crate) fn apply(
    alloc: Global,
    memory: &mut Memory,
    owners: &mut Owners,
    output: &mut Vec<u8>,
    threads: &mut Vec<Progress>,
    phase: &mut Phase,
    t: u32,
    act: &EventAct,
    place: u32,
) -> Result<(), NoMemory>
    requires there { t < length threads.old.items }
    requires legal { refusals.of_act (shared_of memory.old owners.old output.old.items threads.old.items phase.old) t act.now ≡ None }
    ensures ok { OnOk result (shared_of memory.new owners.new output.new.items threads.new.items phase.new
        ≡ shared.effect (shared_of memory.old owners.old output.old.items threads.old.items phase.old) t act.now) }
    ensures threads { OnOk result (threads.new.items ≡ threads_after threads.old.items t act.now place) }
    ensures memory { OnErr result (memory.new ≡ memory.old) }
    ensures owners { OnErr result (owners.new ≡ owners.old) }
    ensures output { OnErr result (output.new.items ≡ output.old.items) }
    ensures unmade { OnErr result (threads.new.items ≡ threads.old.items) }
    ensures phase { OnErr result (phase.new ≡ phase.old) }
{
    match act {
        EventAct::Write { at, value } => write(memory, *at, *value),
        EventAct::Lock(m) => lock(owners, *m, t),
        EventAct::Unlock(m) => unlock(owners, *m, t),
        EventAct::Malloc { cells, at } => return malloc(alloc, memory, *cells, *at),
        EventAct::Free { at } => free(memory, *at),
        EventAct::Print(text) => return print(output, text.as_slice()),
        EventAct::Create(_) => create(threads, place)?,
        EventAct::End => {
            end(threads, t);
            *phase = phase_after_end(*phase, t);
        }
        EventAct::Fault(kind) => *phase = Phase::Failed(*kind),
        EventAct::Retry { gives, .. } => give_all(memory, owners, t, gives.as_slice()),
        EventAct::Read { .. } => {}
        EventAct::Join(_) => {}
        EventAct::Call(_) => {}
        EventAct::Return(_) => {}
        EventAct::Turn => {}
        EventAct::Save => {}
    }
    Ok(())
}
