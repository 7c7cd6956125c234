// Entries at a small shared state, worked by hand.
use super::{Parts, comes, entry, gives, times_out};
use ca_memory::{Memory, Owners};
use ca_model::{Addr, EventAct, FaultKind, Given, LoadKind, Value};
use ca_tree::listed::Listed;
use ca_tree::{FunId, MutexId, NoMemory, SiteId};
use ca_wants::Next;
use std::alloc::Global;
use std::process::Abort;
use std::test::Fail;

fn at(block: u32, offset: i32) -> Value {
    Value::Addr(Addr { block, offset })
}

const M0: MutexId = MutexId(0);

const M1: MutexId = MutexId(1);

const M2: MutexId = MutexId(2);

const M9: MutexId = MutexId(9);

// What the heap has left.
const LEFT: i64 = 1_048_573;

// Block 0 is a global of 2 cells, in whose second cell stands an address; blocks 1 and 3 are of the heap, and block 3 is
// dead.
fn memory(rt: &impl Abort, alloc: Global) -> Result<Memory, Fail> {
    let mut memory = Memory::new(alloc, &[2])?;
    for block in [1, 3] {
        assert!(rt; !memory.is_used(block) && memory.made() < 10 && memory.live_cells() < 10);
        memory.allocate(alloc, 3, block)?;
    }
    assert!(rt; memory.store(at(0, 1), 0, at(1, 0)).is_ok());
    assert!(rt; memory.release(at(3, 0)).is_ok());
    Ok(memory)
}

// Thread 1 owns the first of three mutexes, and thread 2 the second.
fn owners(rt: &impl Abort, alloc: Global) -> Result<Owners, NoMemory> {
    let mut owners = Owners::new(alloc, 3)?;
    assert!(rt; owners.count() == 3);
    assert!(rt; owners.take(M0, 1).is_ok() && owners.take(M1, 2).is_ok());
    Ok(owners)
}

const TAKEN: [Given; 7] = [
    Given::Mutex(M0),
    Given::Block(3),
    Given::Block(1),
    Given::Mutex(M1),
    Given::Mutex(M0),
    Given::Mutex(M9),
    Given::Block(0),
];

#[derive(Drop)]
struct State {
    memory: Memory,
    owners: Owners,
}

fn opened(rt: &impl Abort, alloc: Global) -> Result<State, Fail> {
    Ok(State {
        memory: memory(rt, alloc)?,
        owners: owners(rt, alloc)?,
    })
}

impl State {
    // What comes for thread 1, by what it has taken.
    fn comes(
        &self,
        alloc: Global,
        next: Next<'_>,
        retry: Option<SiteId>,
    ) -> Result<Option<EventAct>, NoMemory> {
        entry(alloc, self.parts(4), 1, next, false, retry, &TAKEN)
    }

    fn parts(&self, threads: u32) -> Parts<'_> {
        Parts {
            memory: &self.memory,
            owners: &self.owners,
            threads,
        }
    }
}

fn read(at: Value, by: i64, kind: LoadKind) -> Next<'static> {
    Next::Read { at, by, kind }
}

fn was_read(block: u32, offset: i32, value: Value) -> Option<EventAct> {
    let at = Addr { block, offset };
    Some(EventAct::Read { at, value })
}

fn fault(kind: FaultKind) -> Option<EventAct> {
    Some(EventAct::Fault(kind))
}

// What thread 1 still holds, each thing once, the latest first.
fn retry(alloc: Global) -> Result<Option<EventAct>, NoMemory> {
    let mut gives = Vec::new(alloc);
    gives.push(Given::Mutex(M0))?;
    gives.push(Given::Block(1))?;
    Ok(Some(EventAct::Retry {
        site: SiteId(4),
        gives: Listed::from_vec(gives),
    }))
}

#[test]
fn a_read_gives_what_the_cell_has_where_its_type_fits(rt: HostRuntime) -> Result<(), Fail> {
    let alloc = rt.alloc();
    let s = opened(&rt, alloc)?;
    let int = LoadKind::Int;
    let pointer = LoadKind::Pointer;
    for (next, act) in [
        (read(at(0, 0), 0, int), was_read(0, 0, Value::Num(0))),
        (read(at(0, -4), 5, pointer), was_read(0, 1, at(1, 0))),
        (read(at(0, 0), 0, pointer), was_read(0, 0, Value::Num(0))),
        (read(at(0, 1), 0, int), fault(FaultKind::Kind)),
        (read(at(0, 1), 0, LoadKind::Thread), fault(FaultKind::Kind)),
        (read(at(0, 2), 0, int), fault(FaultKind::Pointer)),
        (read(at(3, 0), 0, int), fault(FaultKind::Pointer)),
        (read(Value::Num(0), 0, int), fault(FaultKind::Pointer)),
        (read(at(9, 0), 0, int), fault(FaultKind::Pointer)),
    ] {
        assert_eq!(rt; s.comes(alloc, next, None)?, act);
    }
    Ok(())
}

#[test]
fn a_write_a_free_and_an_unlock_fail_where_they_may_not_be(rt: HostRuntime) -> Result<(), Fail> {
    let alloc = rt.alloc();
    let s = opened(&rt, alloc)?;
    let value = Value::Num(5);
    let cell = Addr {
        block: 1,
        offset: 2,
    };
    let pointer = fault(FaultKind::Pointer);
    for (next, act) in [
        (
            Next::Write {
                at: at(1, 0),
                by: 2,
                value,
            },
            Some(EventAct::Write { at: cell, value }),
        ),
        (
            Next::Free { at: at(1, 0) },
            Some(EventAct::Free { at: at(1, 0) }),
        ),
        (
            Next::Free { at: Value::Num(0) },
            Some(EventAct::Free { at: Value::Num(0) }),
        ),
        (Next::Unlock(M0), Some(EventAct::Unlock(M0))),
        (Next::Unlock(M1), fault(FaultKind::Mutex)),
        (Next::Unlock(M2), fault(FaultKind::Mutex)),
        (Next::Unlock(M9), fault(FaultKind::Mutex)),
    ] {
        assert_eq!(rt; s.comes(alloc, next, None)?, act);
    }
    for next in [
        Next::Write {
            at: at(1, 0),
            by: 3,
            value,
        },
        Next::Free { at: at(1, 1) },
        Next::Free { at: at(0, 0) },
        Next::Free { at: at(3, 0) },
        Next::Free { at: Value::Num(7) },
    ] {
        assert_eq!(rt; s.comes(alloc, next, None)?, pointer);
    }
    Ok(())
}

#[test]
fn a_failing_site_goes_back_with_what_is_held(rt: HostRuntime) -> Result<(), Fail> {
    let alloc = rt.alloc();
    let s = opened(&rt, alloc)?;
    let back = retry(alloc)?;
    let site = Some(SiteId(4));
    for next in [
        read(Value::Num(0), 0, LoadKind::Int),
        Next::Write {
            at: at(0, 2),
            by: 0,
            value: Value::Num(5),
        },
        Next::Free { at: at(3, 0) },
        Next::Lock(M1),
        Next::Lock(M0),
        Next::Retry(SiteId(4)),
    ] {
        assert_eq!(rt; s.comes(alloc, next, site)?, back);
    }
    // a cell of the wrong kind is no failing, and a free mutex is taken
    let wrong = read(at(0, 1), 0, LoadKind::Int);
    assert_eq!(rt; s.comes(alloc, wrong, site)?, fault(FaultKind::Kind));
    assert_eq!(rt;
        s.comes(alloc, Next::Lock(M2), site)?,
        Some(EventAct::Lock(M2))
    );
    // without a site it waits
    assert_eq!(rt; s.comes(alloc, Next::Lock(M1), None)?, None);
    Ok(())
}

#[test]
fn malloc_gives_the_least_number_while_there_is_room(rt: HostRuntime) -> Result<(), Fail> {
    let alloc = rt.alloc();
    let s = opened(&rt, alloc)?;
    for (cells, value) in [
        (1, at(2, 0)),
        (LEFT, at(2, 0)),
        (LEFT + 1, Value::Num(0)),
        (0, Value::Num(0)),
        (-1, Value::Num(0)),
        (i64::MAX, Value::Num(0)),
        (i64::MIN, Value::Num(0)),
    ] {
        let act = EventAct::Malloc { cells, at: value };
        assert_eq!(rt; s.comes(alloc, Next::Malloc { cells }, None)?, Some(act));
    }
    Ok(())
}

#[test]
fn threads_are_made_joined_or_waited_for(rt: HostRuntime) -> Result<(), Fail> {
    let alloc = rt.alloc();
    let s = opened(&rt, alloc)?;
    let create = Next::Create {
        function: FunId(0),
        argument: Value::Num(0),
    };
    assert_eq!(rt; s.comes(alloc, create, None)?, Some(EventAct::Create(4)));
    for (threads, act) in [
        (63, Some(EventAct::Create(63))),
        (64, fault(FaultKind::Thread)),
        (65, None),
    ] {
        let parts = s.parts(threads);
        assert_eq!(rt; entry(alloc, parts, 1, create, false, None, &TAKEN)?, act);
    }
    for (number, ended, act) in [
        (2, true, Some(EventAct::Join(2))),
        (3, true, Some(EventAct::Join(3))),
        (1, false, None),
        (0, false, fault(FaultKind::Thread)),
        (4, false, fault(FaultKind::Thread)),
        (-1, false, fault(FaultKind::Thread)),
        (i32::MIN, true, fault(FaultKind::Thread)),
    ] {
        let join = Next::Join(number);
        assert_eq!(rt;
            entry(alloc, s.parts(4), 1, join, ended, None, &TAKEN)?,
            act
        );
    }
    Ok(())
}

#[test]
fn what_is_private_comes_as_it_is(rt: HostRuntime) -> Result<(), Fail> {
    let alloc = rt.alloc();
    let s = opened(&rt, alloc)?;
    let mut bytes = Vec::new(alloc);
    bytes.extend_from_slice(b"5\n")?;
    let print = EventAct::Print(Listed::from_vec(bytes));
    assert_eq!(rt; s.comes(alloc, Next::Print(b"5\n"), None)?, Some(print));
    for (next, act) in [
        (Next::Call(FunId(3)), Some(EventAct::Call(FunId(3)))),
        (
            Next::Return(Value::Num(-1)),
            Some(EventAct::Return(Value::Num(-1))),
        ),
        (Next::Turn, Some(EventAct::Turn)),
        (Next::End, Some(EventAct::End)),
        (Next::Save, Some(EventAct::Save)),
        (Next::Fault(FaultKind::Arith), fault(FaultKind::Arith)),
        (Next::Fault(FaultKind::Assert), fault(FaultKind::Assert)),
        (Next::Ended, None),
    ] {
        assert_eq!(rt; s.comes(alloc, next, None)?, act);
    }
    Ok(())
}

#[test]
fn each_thing_is_given_back_once_the_latest_first(rt: HostRuntime) -> Result<(), Fail> {
    let alloc = rt.alloc();
    let s = opened(&rt, alloc)?;
    let parts = s.parts(4);
    let given = gives(alloc, parts, 2, &TAKEN)?;
    assert_eq!(rt;
        given.as_slice(),
        [Given::Mutex(M1), Given::Block(1)].as_slice()
    );
    let given = gives(alloc, parts, 0, &[])?;
    assert_eq!(rt; given.as_slice().len(), 0);
    Ok(())
}

#[test]
fn it_is_told_without_memory_whether_an_entry_comes(rt: HostRuntime) -> Result<(), Fail> {
    let alloc = rt.alloc();
    let s = opened(&rt, alloc)?;
    let parts = s.parts(4);
    let site = Some(SiteId(4));
    for (next, retry, some, late) in [
        (Next::Lock(M2), None, true, false),
        (Next::Lock(M2), site, true, false),
        (Next::Lock(M1), None, false, false),
        (Next::Lock(M1), site, true, true),
        (Next::Lock(M9), site, false, false),
        (Next::Join(3), None, false, false),
        (Next::Join(0), None, true, false),
        (Next::Free { at: at(3, 0) }, site, true, false),
        (Next::Retry(SiteId(4)), site, true, false),
        (Next::Turn, None, true, false),
        (Next::Ended, None, false, false),
    ] {
        assert_eq!(rt; comes(parts, next, false, retry), some);
        assert_eq!(rt; times_out(parts, next, retry), late);
        let act = entry(alloc, parts, 1, next, false, retry, &TAKEN)?;
        assert_eq!(rt; act.is_some(), some);
    }
    assert!(rt; comes(parts, Next::Join(3), true, None));
    Ok(())
}
