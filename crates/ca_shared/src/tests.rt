// Appended entries, worked by hand.
use super::{AppendNo, Illegal, Phase, Shared};
use ca_memory::Bad;
use ca_model::{Addr, Event, EventAct, FaultKind, Given, Gives, GlobalStart, Value};
use ca_tree::{FunId, MutexId, SiteId, Text};
use std::alloc::{AllocError, Global};
use std::process::Abort;
use std::test::Fail;

const MOST_CELLS: i64 = 1_048_576;

fn at(block: u32, offset: i32) -> Addr {
    Addr { block, offset }
}

fn bad(block: u32, offset: i32) -> Illegal {
    Illegal::BadAddress(Bad {
        at: Value::Addr(at(block, offset)),
        by: 0,
    })
}

fn bad_malloc(cells: i64, value: Value) -> Illegal {
    Illegal::BadMalloc { cells, at: value }
}

fn read(block: u32, offset: i32, number: i32) -> EventAct {
    EventAct::Read {
        at: at(block, offset),
        value: Value::Num(number),
    }
}

fn write(block: u32, offset: i32, number: i32) -> EventAct {
    EventAct::Write {
        at: at(block, offset),
        value: Value::Num(number),
    }
}

fn lock(m: u32) -> EventAct {
    EventAct::Lock(MutexId(m))
}

fn unlock(m: u32) -> EventAct {
    EventAct::Unlock(MutexId(m))
}

fn malloc(cells: i64, block: u32, offset: i32) -> EventAct {
    EventAct::Malloc {
        cells,
        at: Value::Addr(at(block, offset)),
    }
}

fn null(cells: i64) -> EventAct {
    EventAct::Malloc {
        cells,
        at: Value::Num(0),
    }
}

fn free(block: u32, offset: i32) -> EventAct {
    EventAct::Free {
        at: Value::Addr(at(block, offset)),
    }
}

fn call() -> EventAct {
    EventAct::Call(FunId(1))
}

fn back() -> EventAct {
    EventAct::Return(Value::Num(0))
}

fn retry(alloc: Global, things: &[Given]) -> Result<EventAct, AllocError> {
    Ok(EventAct::Retry {
        site: SiteId(1),
        gives: Gives::from_vec(Vec::from_slice(alloc, things)?),
    })
}

fn print(alloc: Global, bytes: &[u8]) -> Result<EventAct, AllocError> {
    Ok(EventAct::Print(Text::from_vec(Vec::from_slice(alloc, bytes)?)))
}

fn append(
    rt: &impl Abort,
    alloc: Global,
    shared: &mut Shared,
    thread: u32,
    act: EventAct,
) -> Result<(), AppendNo> {
    shared.append(alloc, Event { thread, act })
}

// One global of two cells that opens with 5, and two mutexes.
fn opening(alloc: Global) -> Result<Shared, Fail> {
    let global = GlobalStart {
        cells: 2,
        first: Value::Num(5),
    };
    Ok(Shared::open(alloc, &[global], 2)?)
}

// Thread 1 is made and owns mutex 1, and block 1 has three cells.
fn prepared(rt: &impl Abort, alloc: Global) -> Result<Shared, Fail> {
    let mut shared = opening(alloc)?;
    assert_eq!(rt;
        append(rt, alloc, &mut shared, 0, EventAct::Create(1)),
        Ok(())
    );
    assert_eq!(rt; append(rt, alloc, &mut shared, 1, lock(1)), Ok(()));
    assert_eq!(rt; append(rt, alloc, &mut shared, 0, malloc(3, 1, 0)), Ok(()));
    Ok(shared)
}

// An entry is refused for this reason, and the next one is appended.
fn refused(
    rt: &impl Abort,
    alloc: Global,
    shared: &mut Shared,
    thread: u32,
    act: EventAct,
    why: Illegal,
) -> Result<(), Fail> {
    let entries = shared.trace().len();
    let got = append(rt, alloc, shared, thread, act);
    assert_eq!(rt; got, Err(AppendNo::Illegal(why)), "{why:?}");
    assert_eq!(rt; shared.trace().len(), entries, "{why:?}");
    assert_eq!(rt;
        append(rt, alloc, shared, 0, EventAct::Turn),
        Ok(()),
        "{why:?}"
    );
    Ok(())
}

#[test]
fn openings_refuse_what_is_not_there(rt: HostRuntime) -> Result<(), Fail> {
    let alloc = rt.alloc();
    let global = GlobalStart {
        cells: 1,
        first: Value::Num(0),
    };
    let mut shared = Shared::open(alloc, &[global], 0)?;
    refused(
        &rt,
        alloc,
        &mut shared,
        0,
        read(0, 0, 1),
        Illegal::OtherValue(Value::Num(0)),
    )?;
    refused(&rt, alloc, &mut shared, 0, lock(0), Illegal::NoMutex(0))?;
    refused(
        &rt,
        alloc,
        &mut shared,
        0,
        malloc(0, 1, 0),
        bad_malloc(0, Value::Addr(at(1, 0))),
    )?;
    assert!(rt; shared.opened_as(&[global], 0));
    assert!(rt; !shared.opened_as(&[global], 1) && !shared.opened_as(&[], 0));
    Ok(())
}

#[test]
fn cells_and_mutexes_refuse_with_their_values(rt: HostRuntime) -> Result<(), Fail> {
    let alloc = rt.alloc();
    let mut shared = prepared(&rt, alloc)?;
    for (thread, act, why) in [
        (0, read(0, 0, 6), Illegal::OtherValue(Value::Num(5))),
        (0, read(0, 2, 0), bad(0, 2)),
        (0, read(2, 0, 0), bad(2, 0)),
        (1, write(1, 3, 1), bad(1, 3)),
        (1, write(1, -1, 1), bad(1, -1)),
        (0, lock(1), Illegal::OwnerIs(Some(1))),
        (1, lock(1), Illegal::OwnerIs(Some(1))),
        (1, lock(2), Illegal::NoMutex(2)),
        (0, unlock(1), Illegal::OwnerIs(Some(1))),
        (0, unlock(0), Illegal::OwnerIs(None)),
        (0, unlock(7), Illegal::NoMutex(2)),
        (2, EventAct::Turn, Illegal::NoThread),
    ] {
        refused(&rt, alloc, &mut shared, thread, act, why)?;
    }
    Ok(())
}

#[test]
fn blocks_and_threads_refuse_with_their_values(rt: HostRuntime) -> Result<(), Fail> {
    let alloc = rt.alloc();
    let mut shared = prepared(&rt, alloc)?;
    for (act, why) in [
        (malloc(1, 1, 0), Illegal::BlockUsed(1)),
        (malloc(1, 0, 0), Illegal::BlockUsed(0)),
        (malloc(-1, 2, 0), bad_malloc(-1, Value::Addr(at(2, 0)))),
        (malloc(1, 2, 1), bad_malloc(1, Value::Addr(at(2, 1)))),
        (malloc(MOST_CELLS - 2, 2, 0), Illegal::HeapFull(3)),
        (malloc(i64::MAX, 2, 0), Illegal::HeapFull(3)),
        (free(0, 0), bad(0, 0)),
        (free(1, 1), bad(1, 1)),
        (free(2, 0), bad(2, 0)),
        (EventAct::Create(1), Illegal::ThreadsAre(2)),
        (EventAct::Create(3), Illegal::ThreadsAre(2)),
        (EventAct::Join(1), Illegal::NotEnded(1)),
        (EventAct::Join(0), Illegal::NotEnded(0)),
        (EventAct::Join(2), Illegal::ThreadsAre(2)),
    ] {
        refused(&rt, alloc, &mut shared, 0, act, why)?;
    }
    let seven = Value::Num(7);
    let act = EventAct::Malloc {
        cells: 1,
        at: seven,
    };
    refused(&rt, alloc, &mut shared, 0, act, bad_malloc(1, seven))?;
    let act = EventAct::Free { at: seven };
    let why = Illegal::BadAddress(Bad { at: seven, by: 0 });
    refused(&rt, alloc, &mut shared, 0, act, why)
}

#[test]
fn a_retry_is_refused_at_its_first_bad_thing(rt: HostRuntime) -> Result<(), Fail> {
    let alloc = rt.alloc();
    let mut shared = prepared(&rt, alloc)?;
    let mutex = |number| Given::Mutex(MutexId(number));
    let block = Given::Block;
    for (thread, things, why) in [
        (0, [block(1), mutex(1)], Illegal::OwnerIs(Some(1))),
        (0, [mutex(0), block(1)], Illegal::OwnerIs(None)),
        (1, [mutex(1), mutex(1)], Illegal::OwnerIs(None)),
        (1, [block(1), block(1)], bad(1, 0)),
        (1, [mutex(1), block(0)], bad(0, 0)),
        (1, [mutex(5), block(9)], Illegal::NoMutex(2)),
        (1, [block(9), mutex(5)], bad(9, 0)),
    ] {
        let act = retry(alloc, &things)?;
        refused(&rt, alloc, &mut shared, thread, act, why)?;
    }
    let act = retry(alloc, &[block(1), mutex(1)])?;
    assert_eq!(rt; append(&rt, alloc, &mut shared, 1, act), Ok(()));
    assert_eq!(rt; shared.memory().live_cells(), 0);
    assert!(rt; shared.owners().count() == 2);
    assert_eq!(rt; shared.owners().owner(MutexId(1)), None);
    refused(&rt, alloc, &mut shared, 0, free(1, 0), bad(1, 0))?;
    assert_eq!(rt; append(&rt, alloc, &mut shared, 0, lock(1)), Ok(()));
    Ok(())
}

#[test]
fn the_first_of_two_reasons_is_told(rt: HostRuntime) -> Result<(), Fail> {
    let alloc = rt.alloc();
    let mut shared = prepared(&rt, alloc)?;
    for (thread, act, why) in [
        (5, read(0, 0, 6), Illegal::NoThread),
        (0, malloc(0, 1, 0), bad_malloc(0, Value::Addr(at(1, 0)))),
        (0, malloc(MOST_CELLS, 1, 0), Illegal::BlockUsed(1)),
    ] {
        refused(&rt, alloc, &mut shared, thread, act, why)?;
    }
    assert_eq!(rt; append(&rt, alloc, &mut shared, 1, EventAct::End), Ok(()));
    for act in [lock(1), read(0, 0, 6), EventAct::End] {
        refused(&rt, alloc, &mut shared, 1, act, Illegal::ThreadEnded)?;
    }
    assert_eq!(rt;
        append(&rt, alloc, &mut shared, 0, EventAct::Join(1)),
        Ok(())
    );
    assert_eq!(rt; append(&rt, alloc, &mut shared, 0, EventAct::End), Ok(()));
    assert_eq!(rt; shared.phase(), Phase::Finished);
    for thread in [0, 1, 5] {
        let got = append(&rt, alloc, &mut shared, thread, read(0, 0, 6));
        assert_eq!(rt; got, Err(AppendNo::Illegal(Illegal::RunEnded)), "{thread}");
    }
    Ok(())
}

#[test]
fn nothing_follows_a_fault(rt: HostRuntime) -> Result<(), Fail> {
    let alloc = rt.alloc();
    let mut shared = prepared(&rt, alloc)?;
    let fault = EventAct::Fault(FaultKind::Assert);
    assert_eq!(rt; append(&rt, alloc, &mut shared, 1, fault), Ok(()));
    assert_eq!(rt; shared.phase(), Phase::Failed(FaultKind::Assert));
    let got = append(&rt, alloc, &mut shared, 0, EventAct::Turn);
    assert_eq!(rt; got, Err(AppendNo::Illegal(Illegal::RunEnded)));
    assert_eq!(rt; shared.trace().len(), 4);
    Ok(())
}

#[test]
fn the_heap_takes_so_many_cells_and_null_at_any_time(rt: HostRuntime) -> Result<(), Fail> {
    let alloc = rt.alloc();
    let mut shared = opening(alloc)?;
    for act in [
        null(0),
        null(-1),
        null(i64::MAX),
        malloc(MOST_CELLS, 7, 0),
        null(1),
    ] {
        assert_eq!(rt; append(&rt, alloc, &mut shared, 0, act), Ok(()));
    }
    refused(
        &rt,
        alloc,
        &mut shared,
        0,
        malloc(1, 1, 0),
        Illegal::HeapFull(1_048_576),
    )?;
    for act in [
        free(7, 0),
        malloc(1, 1, 0),
        EventAct::Free { at: Value::Num(0) },
    ] {
        assert_eq!(rt; append(&rt, alloc, &mut shared, 0, act), Ok(()));
    }
    assert_eq!(rt;
        (shared.memory().live_cells(), shared.memory().made()),
        (1, 3)
    );
    Ok(())
}

#[test]
fn there_are_at_most_64_threads(rt: HostRuntime) -> Result<(), Fail> {
    let alloc = rt.alloc();
    let mut shared = opening(alloc)?;
    for number in 1..64u32 {
        assert_eq!(rt;
            append(
                &rt,
                alloc,
                &mut shared,
                number - 1,
                EventAct::Create(number)
            ),
            Ok(())
        );
    }
    assert_eq!(rt; (shared.threads(), shared.frames()), (64, 64));
    refused(
        &rt,
        alloc,
        &mut shared,
        63,
        EventAct::Create(64),
        Illegal::ThreadsAre(64),
    )
}

#[test]
fn frames_go_by_calls_returns_and_retries(rt: HostRuntime) -> Result<(), Fail> {
    let alloc = rt.alloc();
    let mut shared = opening(alloc)?;
    for (thread, act, frames) in [
        (0, back(), 1),
        (0, retry(alloc, &[])?, 1),
        (0, call(), 2),
        (0, EventAct::Create(1), 3),
        (1, call(), 4),
        (1, EventAct::Save, 4),
        (1, call(), 5),
        (1, call(), 6),
        (1, retry(alloc, &[])?, 4),
        (1, back(), 3),
        (1, back(), 3),
        (1, retry(alloc, &[])?, 4),
        (1, EventAct::End, 2),
        (0, EventAct::Fault(FaultKind::Arith), 0),
    ] {
        assert_eq!(rt; append(&rt, alloc, &mut shared, thread, act), Ok(()));
        assert_eq!(rt; shared.frames(), frames, "{}", shared.trace().len());
    }
    Ok(())
}

#[test]
fn entries_are_counted_since_the_last_one(rt: HostRuntime) -> Result<(), Fail> {
    let alloc = rt.alloc();
    let mut shared = opening(alloc)?;
    let first = |shared: &Shared| shared.threads() > 0;
    assert!(rt; first(&shared) && shared.since_last(0) == 0);
    for (thread, act) in [
        (0, EventAct::Create(1)),
        (0, write(0, 1, 8)),
        (0, print(alloc, b"ab")?),
    ] {
        assert_eq!(rt; append(&rt, alloc, &mut shared, thread, act), Ok(()));
    }
    assert!(rt; shared.threads() == 2);
    assert_eq!(rt; (shared.since_last(0), shared.since_last(1)), (0, 2));
    for (thread, act) in [
        (1, read(0, 1, 8)),
        (1, print(alloc, b"c")?),
        (1, EventAct::End),
    ] {
        assert_eq!(rt; append(&rt, alloc, &mut shared, thread, act), Ok(()));
    }
    assert!(rt; shared.threads() == 2);
    assert_eq!(rt; (shared.since_last(0), shared.since_last(1)), (3, 0));
    assert!(rt; shared.has_ended(1) && !shared.has_ended(0));
    assert_eq!(rt; shared.output(), b"abc".as_slice());
    assert_eq!(rt; shared.phase(), Phase::Open);
    Ok(())
}
