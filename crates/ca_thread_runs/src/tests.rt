// Threads by themselves, worked by hand from the rules: each next action, and what is taken then.
use crate::Run;
use crate::sources::{BY_ZERO, DEEP_CALLS, TAKEN_TWICE};
use crate::table::{
    Does, Move, at, cell, event, follow, is_over, num, plan, refuses, start, takes,
};
use ca_model::{FaultKind, Given, LoadKind, Plan, Value};
use ca_sources::{
    BOUNDED_BUFFER, EMPTY_MAIN, GIVEN_BLOCK, LOOP_POINTS, NULL_POINTER, PRINTED_SUM,
    THROUGH_CALLER, WATCH,
};
use ca_thread::{AdvanceNo, Next};
use ca_tree::{FunId, ItemId, MutexId, SiteId};
use std::alloc::Global;
use std::process::Abort;
use std::test::Fail;

// A read of a cell at a type.
fn reads<'a>(at: Value, by: i64, kind: LoadKind) -> Next<'a> {
    Next::Read { at, by, kind }
}

fn writes<'a>(at: Value, by: i64, value: Value) -> Next<'a> {
    Next::Write { at, by, value }
}

#[test]
fn a_sum_is_printed(rt: HostRuntime) -> Result<(), Fail> {
    let alloc = rt.alloc();
    let mut run = start(&rt, alloc, PRINTED_SUM, &Plan::empty(alloc), 0, 0, num(0))?;
    follow(
        &rt,
        alloc,
        &mut run,
        &[
            (
                writes(cell(0, 0), 0, num(5)),
                0,
                Does::Write(at(0, 0), num(6)),
                Does::Write(at(0, 0), num(5)),
                &[],
            ),
            (
                reads(cell(0, 0), 0, LoadKind::Int),
                0,
                Does::Read(at(0, 0), cell(0, 0)),
                Does::Read(at(0, 0), num(5)),
                &[],
            ),
            (
                Next::Print(b"5\n"),
                0,
                Does::Print(b"5"),
                Does::Print(b"5\n"),
                &[],
            ),
            (Next::End, 0, Does::Return(num(0)), Does::End, &[]),
        ],
    )?;
    is_over(&rt, alloc, &mut run)
}

#[test]
fn a_failing_assertion_retries_up_to_the_limit(rt: HostRuntime) -> Result<(), Fail> {
    let alloc = rt.alloc();
    let plan = plan(alloc, 2, &[], &[FunId(0)], &[SiteId(1)], &[])?;
    let mut run = start(&rt, alloc, WATCH, &plan, 1, 0, num(0))?;
    let ready = reads(cell(0, 0), 0, LoadKind::Int);
    let none = Does::Read(at(0, 0), num(0));
    follow(
        &rt,
        alloc,
        &mut run,
        &[
            (Next::Save, 0, Does::Turn, Does::Save, &[]),
            (ready, 0, Does::Read(at(0, 1), num(0)), none, &[]),
            (
                Next::Retry(SiteId(1)),
                1,
                Does::Fault(FaultKind::Assert),
                Does::Retry(1, &[]),
                &[],
            ),
            (ready, 0, Does::Save, none, &[]),
            (
                Next::Retry(SiteId(1)),
                1,
                Does::Retry(2, &[]),
                Does::Retry(1, &[]),
                &[],
            ),
            (ready, 0, Does::Write(at(0, 0), num(0)), none, &[]),
            (
                Next::Fault(FaultKind::Assert),
                0,
                Does::Retry(1, &[]),
                Does::Fault(FaultKind::Assert),
                &[],
            ),
        ],
    )?;
    is_over(&rt, alloc, &mut run)
}

#[test]
fn a_watch_recovers_after_one_retry(rt: HostRuntime) -> Result<(), Fail> {
    let alloc = rt.alloc();
    let plan = plan(alloc, 2, &[], &[FunId(0)], &[SiteId(1)], &[])?;
    let mut run = start(&rt, alloc, WATCH, &plan, 1, 0, num(0))?;
    takes(&rt, alloc, &mut run, Does::Save)?;
    takes(&rt, alloc, &mut run, Does::Read(at(0, 0), num(0)))?;
    takes(&rt, alloc, &mut run, Does::Retry(1, &[]))?;
    takes(&rt, alloc, &mut run, Does::Read(at(0, 0), num(1)))?;
    takes(&rt, alloc, &mut run, Does::End)?;
    assert_eq!(rt; run.events().len(), 5);
    is_over(&rt, alloc, &mut run)
}

#[test]
fn a_null_pointer_is_read_again(rt: HostRuntime) -> Result<(), Fail> {
    let alloc = rt.alloc();
    let plan = plan(
        alloc,
        10,
        &[ItemId(6)],
        &[FunId(0)],
        &[SiteId(1), SiteId(2)],
        &[],
    )?;
    let mut run = start(&rt, alloc, NULL_POINTER, &plan, 1, 0, num(0))?;
    let pointer = reads(cell(0, 0), 0, LoadKind::Pointer);
    follow(
        &rt,
        alloc,
        &mut run,
        &[
            (Next::Save, 0, Does::End, Does::Save, &[]),
            (
                pointer,
                0,
                Does::Fault(FaultKind::Arith),
                Does::Read(at(0, 0), num(0)),
                &[],
            ),
            (
                reads(num(0), 0, LoadKind::Int),
                1,
                Does::Fault(FaultKind::Pointer),
                Does::Retry(1, &[]),
                &[],
            ),
            (
                pointer,
                0,
                Does::Read(at(0, 0), num(5)),
                Does::Read(at(0, 0), cell(1, 0)),
                &[],
            ),
            (
                reads(cell(1, 0), 0, LoadKind::Int),
                1,
                Does::Read(at(1, 0), cell(0, 0)),
                Does::Read(at(1, 0), num(7)),
                &[],
            ),
            (
                Next::Print(b"7\n"),
                0,
                Does::Print(b"8\n"),
                Does::Print(b"7\n"),
                &[],
            ),
            (Next::End, 0, Does::Return(num(0)), Does::End, &[]),
        ],
    )?;
    is_over(&rt, alloc, &mut run)
}

#[test]
fn a_block_is_made_and_a_save_stands_behind_it(rt: HostRuntime) -> Result<(), Fail> {
    let alloc = rt.alloc();
    let plan = plan(
        alloc,
        10,
        &[ItemId(6)],
        &[FunId(0)],
        &[SiteId(1), SiteId(2)],
        &[],
    )?;
    let mut run = start(&rt, alloc, NULL_POINTER, &plan, 0, 1, num(0))?;
    let create = Next::Create {
        function: FunId(0),
        argument: num(0),
    };
    follow(
        &rt,
        alloc,
        &mut run,
        &[
            (create, 0, Does::Join(1), Does::Create(1), &[]),
            (
                Next::Malloc { cells: 1 },
                0,
                Does::Malloc(2, cell(1, 0)),
                Does::Malloc(1, cell(1, 0)),
                &[],
            ),
            (
                writes(cell(0, 0), 0, cell(1, 0)),
                0,
                Does::Write(at(0, 0), num(0)),
                Does::Write(at(0, 0), cell(1, 0)),
                &[],
            ),
            (
                Next::Save,
                0,
                Does::Read(at(0, 0), cell(1, 0)),
                Does::Save,
                &[],
            ),
            (
                reads(cell(0, 0), 0, LoadKind::Pointer),
                0,
                Does::Retry(2, &[]),
                Does::Read(at(0, 0), cell(1, 0)),
                &[],
            ),
            (
                writes(cell(1, 0), 0, num(7)),
                2,
                Does::Write(at(1, 1), num(7)),
                Does::Write(at(1, 0), num(7)),
                &[],
            ),
            (Next::Join(1), 0, Does::Join(2), Does::Join(1), &[]),
            (Next::End, 0, Does::Turn, Does::End, &[]),
        ],
    )?;
    is_over(&rt, alloc, &mut run)
}

#[test]
fn a_block_is_given_back(rt: HostRuntime) -> Result<(), Fail> {
    let alloc = rt.alloc();
    let plan = plan(alloc, 5, &[], &[FunId(0)], &[SiteId(1)], &[ItemId(1)])?;
    let mut run = start(&rt, alloc, GIVEN_BLOCK, &plan, 1, 0, num(0))?;
    let malloc = Next::Malloc { cells: 2 };
    let ok = reads(cell(0, 0), 0, LoadKind::Int);
    let first = [Given::Block(1)];
    let second = [Given::Block(2)];
    follow(
        &rt,
        alloc,
        &mut run,
        &[
            (Next::Save, 0, Does::Malloc(2, cell(1, 0)), Does::Save, &[]),
            (
                malloc,
                0,
                Does::Malloc(1, cell(1, 0)),
                Does::Malloc(2, cell(1, 0)),
                &first,
            ),
            (
                ok,
                0,
                Does::Read(at(1, 0), num(0)),
                Does::Read(at(0, 0), num(0)),
                &first,
            ),
            (
                Next::Retry(SiteId(1)),
                1,
                Does::Retry(1, &second),
                Does::Retry(1, &first),
                &[],
            ),
            (malloc, 0, Does::Save, Does::Malloc(2, cell(2, 0)), &second),
            (ok, 0, Does::End, Does::Read(at(0, 0), num(1)), &second),
            (
                Next::Free { at: cell(2, 0) },
                0,
                Does::Free(cell(1, 0)),
                Does::Free(cell(2, 0)),
                &second,
            ),
            (Next::End, 0, Does::Return(num(0)), Does::End, &second),
        ],
    )?;
    is_over(&rt, alloc, &mut run)
}

#[test]
fn a_retry_in_a_called_function_restores_its_caller(rt: HostRuntime) -> Result<(), Fail> {
    let alloc = rt.alloc();
    let plan = plan(alloc, 5, &[], &[FunId(1)], &[SiteId(1)], &[])?;
    let mut run = start(&rt, alloc, THROUGH_CALLER, &plan, 1, 1, num(0))?;
    let global = reads(cell(0, 0), 0, LoadKind::Int);
    follow(
        &rt,
        alloc,
        &mut run,
        &[
            (Next::Save, 0, Does::Call(0), Does::Save, &[]),
            (global, 0, Does::Call(0), Does::Read(at(0, 0), num(0)), &[]),
            (Next::Call(FunId(0)), 0, Does::Call(1), Does::Call(0), &[]),
            (
                Next::Retry(SiteId(1)),
                1,
                Does::Return(num(0)),
                Does::Retry(1, &[]),
                &[],
            ),
            (
                global,
                0,
                Does::Return(num(0)),
                Does::Read(at(0, 0), num(1)),
                &[],
            ),
            (
                Next::Call(FunId(0)),
                0,
                Does::Return(num(0)),
                Does::Call(0),
                &[],
            ),
            (
                Next::Return(num(0)),
                0,
                Does::Return(num(1)),
                Does::Return(num(0)),
                &[],
            ),
            (Next::End, 0, Does::Return(num(0)), Does::End, &[]),
        ],
    )?;
    is_over(&rt, alloc, &mut run)
}

#[test]
fn a_condition_that_is_a_site_has_two_saves(rt: HostRuntime) -> Result<(), Fail> {
    let alloc = rt.alloc();
    let plan = plan(alloc, 5, &[ItemId(4)], &[FunId(0)], &[SiteId(1)], &[])?;
    let mut run = start(&rt, alloc, LOOP_POINTS, &plan, 0, 0, num(0))?;
    let index = reads(cell(1, 0), 0, LoadKind::Int);
    follow(
        &rt,
        alloc,
        &mut run,
        &[
            (Next::Save, 0, Does::Turn, Does::Save, &[]),
            (Next::Turn, 0, Does::End, Does::Turn, &[]),
            (
                index,
                0,
                Does::Read(at(0, 0), num(0)),
                Does::Read(at(1, 0), num(0)),
                &[],
            ),
            (
                reads(cell(0, 0), 0, LoadKind::Int),
                1,
                Does::Read(at(0, 1), num(1)),
                Does::Read(at(0, 0), num(1)),
                &[],
            ),
            (
                writes(cell(1, 0), 0, num(1)),
                0,
                Does::Write(at(1, 0), num(0)),
                Does::Write(at(1, 0), num(1)),
                &[],
            ),
            (Next::Save, 0, Does::Turn, Does::Save, &[]),
            (Next::Turn, 0, Does::Save, Does::Turn, &[]),
            (
                index,
                0,
                Does::Read(at(1, 0), cell(1, 0)),
                Does::Read(at(1, 0), num(1)),
                &[],
            ),
            (
                reads(cell(0, 0), 1, LoadKind::Int),
                1,
                Does::Read(at(0, 0), num(0)),
                Does::Read(at(0, 1), num(0)),
                &[],
            ),
            (Next::End, 0, Does::Turn, Does::End, &[]),
        ],
    )?;
    is_over(&rt, alloc, &mut run)
}

#[test]
fn a_consumer_gives_its_mutex_back(rt: HostRuntime) -> Result<(), Fail> {
    let alloc = rt.alloc();
    let plan = plan(
        alloc,
        3,
        &[],
        &[FunId(0)],
        &[SiteId(1), SiteId(2)],
        &[ItemId(5)],
    )?;
    let mut run = start(&rt, alloc, BOUNDED_BUFFER, &plan, 1, 0, num(0))?;
    let lock = Next::Lock(MutexId(0));
    let buffer = reads(cell(0, 0), 0, LoadKind::Pointer);
    let guard = [Given::Mutex(MutexId(0))];
    follow(
        &rt,
        alloc,
        &mut run,
        &[
            (Next::Save, 0, Does::Lock(0), Does::Save, &[]),
            (Next::Turn, 0, Does::Lock(0), Does::Turn, &[]),
            (lock, 1, Does::Lock(1), Does::Lock(0), &guard),
            (
                buffer,
                0,
                Does::Unlock(0),
                Does::Read(at(0, 0), num(0)),
                &guard,
            ),
            (
                reads(num(0), 2, LoadKind::Int),
                2,
                Does::Retry(2, &[Given::Block(0)]),
                Does::Retry(2, &guard),
                &[],
            ),
            (Next::Turn, 0, Does::Save, Does::Turn, &[]),
            (lock, 1, Does::Unlock(0), Does::Lock(0), &guard),
            (
                buffer,
                0,
                Does::Read(at(0, 0), num(1)),
                Does::Read(at(0, 0), cell(4, 0)),
                &guard,
            ),
            (
                reads(cell(4, 0), 2, LoadKind::Int),
                2,
                Does::Read(at(4, 0), num(0)),
                Does::Read(at(4, 2), num(0)),
                &guard,
            ),
            (
                Next::Unlock(MutexId(0)),
                0,
                Does::Unlock(1),
                Does::Unlock(0),
                &guard,
            ),
            (Next::Turn, 0, Does::End, Does::Turn, &guard),
            (
                lock,
                1,
                Does::Fault(FaultKind::Mutex),
                Does::Retry(1, &[]),
                &[],
            ),
            (Next::Turn, 0, Does::End, Does::Turn, &[]),
        ],
    )
}

#[test]
fn a_producer_puts_a_number_into_the_buffer(rt: HostRuntime) -> Result<(), Fail> {
    let alloc = rt.alloc();
    let mut run = start(
        &rt,
        alloc,
        BOUNDED_BUFFER,
        &Plan::empty(alloc),
        2,
        2,
        cell(2, 0),
    )?;
    let buffer = reads(cell(0, 0), 0, LoadKind::Pointer);
    let there = Does::Read(at(0, 0), cell(4, 0));
    let used = reads(cell(4, 0), 2, LoadKind::Int);
    let none_used = Does::Read(at(4, 2), num(0));
    let size = reads(cell(1, 0), 0, LoadKind::Int);
    let four = Does::Read(at(1, 0), num(4));
    let wrong = Does::Save;
    let moves: [Move<'_>; 20] = [
        (Next::Turn, 0, wrong, Does::Turn, &[]),
        (
            reads(cell(2, 0), 0, LoadKind::Int),
            0,
            wrong,
            Does::Read(at(2, 0), num(10)),
            &[],
        ),
        (Next::Call(FunId(1)), 0, wrong, Does::Call(1), &[]),
        (Next::Lock(MutexId(0)), 0, wrong, Does::Lock(0), &[]),
        (buffer, 0, wrong, there, &[]),
        (used, 0, wrong, none_used, &[]),
        (size, 0, wrong, four, &[]),
        (buffer, 0, wrong, there, &[]),
        (
            reads(cell(4, 0), 0, LoadKind::Pointer),
            0,
            wrong,
            Does::Read(at(4, 0), cell(5, 0)),
            &[],
        ),
        (buffer, 0, wrong, there, &[]),
        (
            reads(cell(4, 0), 1, LoadKind::Int),
            0,
            wrong,
            Does::Read(at(4, 1), num(3)),
            &[],
        ),
        (buffer, 0, wrong, there, &[]),
        (used, 0, wrong, Does::Read(at(4, 2), num(2)), &[]),
        (size, 0, wrong, four, &[]),
        (
            writes(cell(5, 0), 1, num(10)),
            0,
            wrong,
            Does::Write(at(5, 1), num(10)),
            &[],
        ),
        (buffer, 0, wrong, there, &[]),
        (used, 0, wrong, none_used, &[]),
        (
            writes(cell(4, 0), 2, num(1)),
            0,
            wrong,
            Does::Write(at(4, 2), num(1)),
            &[],
        ),
        (Next::Unlock(MutexId(0)), 0, wrong, Does::Unlock(0), &[]),
        (Next::Return(num(1)), 0, wrong, Does::Return(num(1)), &[]),
    ];
    follow(&rt, alloc, &mut run, &moves)?;
    follow(
        &rt,
        alloc,
        &mut run,
        &[(Next::Turn, 0, wrong, Does::Turn, &[])],
    )
}

#[test]
fn a_division_by_zero_faults(rt: HostRuntime) -> Result<(), Fail> {
    let alloc = rt.alloc();
    let mut run = start(&rt, alloc, BY_ZERO, &Plan::empty(alloc), 0, 0, num(0))?;
    follow(
        &rt,
        alloc,
        &mut run,
        &[(
            Next::Fault(FaultKind::Arith),
            0,
            Does::Fault(FaultKind::Assert),
            Does::Fault(FaultKind::Arith),
            &[],
        )],
    )?;
    is_over(&rt, alloc, &mut run)
}

#[test]
fn a_main_that_returns_has_no_turn_and_no_other_thread(rt: HostRuntime) -> Result<(), Fail> {
    let alloc = rt.alloc();
    let mut run = start(&rt, alloc, EMPTY_MAIN, &Plan::empty(alloc), 0, 0, num(0))?;
    refuses(&rt, alloc, &mut run, Does::Turn)?;
    let other = event(alloc, 1, Does::End)?;
    assert_eq!(rt; run.prepare(&other), Err(AdvanceNo::NotNext));
    assert_eq!(rt; run.advance(&other), Err(AdvanceNo::NotNext));
    takes(&rt, alloc, &mut run, Does::End)?;
    assert_eq!(rt; run.events(), [event(alloc, 0, Does::End)?].as_slice());
    is_over(&rt, alloc, &mut run)
}

// A thread that took a mutex, another one, and the first again, at an assertion that is false.
fn taken_twice(rt: &impl Abort, alloc: Global) -> Result<Run, Fail> {
    let acquires = [ItemId(1), ItemId(3), ItemId(4)];
    let plan = plan(alloc, 5, &[], &[FunId(0)], &[SiteId(4)], &acquires)?;
    let mut run = start(rt, alloc, TAKEN_TWICE, &plan, 1, 0, num(0))?;
    takes(rt, alloc, &mut run, Does::Save)?;
    takes(rt, alloc, &mut run, Does::Lock(0))?;
    takes(rt, alloc, &mut run, Does::Unlock(0))?;
    takes(rt, alloc, &mut run, Does::Lock(1))?;
    takes(rt, alloc, &mut run, Does::Lock(0))?;
    takes(rt, alloc, &mut run, Does::Read(at(0, 0), num(0)))?;
    Ok(run)
}

#[test]
fn each_thing_is_given_back_once_the_latest_first(rt: HostRuntime) -> Result<(), Fail> {
    let alloc = rt.alloc();
    let a = Given::Mutex(MutexId(0));
    let b = Given::Mutex(MutexId(1));
    let never = Given::Mutex(MutexId(2));
    let mut run = taken_twice(&rt, alloc)?;
    assert_eq!(rt; run.taken(), [a, b, a].as_slice());
    let refused: [&[Given]; 8] = [
        &[b, a],
        &[a, a],
        &[b, b],
        &[a, b, a],
        &[never],
        &[a, never],
        &[Given::Block(0)],
        &[a, Given::Block(1), b],
    ];
    for gives in refused {
        refuses(&rt, alloc, &mut run, Does::Retry(4, gives))?;
    }
    refuses(&rt, alloc, &mut run, Does::Retry(3, &[a, b]))?;
    assert_eq!(rt; run.next(), Next::Retry(SiteId(4)));
    takes(&rt, alloc, &mut run, Does::Retry(4, &[a, b]))?;
    assert_eq!(rt; run.taken(), [].as_slice());
    assert_eq!(rt; run.next(), Next::Lock(MutexId(0)));
    Ok(())
}

#[test]
fn a_retry_may_give_back_a_part(rt: HostRuntime) -> Result<(), Fail> {
    let alloc = rt.alloc();
    let a = Given::Mutex(MutexId(0));
    let b = Given::Mutex(MutexId(1));
    let parts: [&[Given]; 4] = [&[a, b], &[a], &[b], &[]];
    for gives in parts {
        let mut run = taken_twice(&rt, alloc)?;
        takes(&rt, alloc, &mut run, Does::Retry(4, gives))?;
        assert_eq!(rt; run.taken(), [].as_slice());
    }
    Ok(())
}

#[test]
fn another_event_than_the_prepared_one_is_taken(rt: HostRuntime) -> Result<(), Fail> {
    let alloc = rt.alloc();
    let mut run = start(&rt, alloc, WATCH, &Plan::empty(alloc), 1, 0, num(0))?;
    let zero = event(alloc, 1, Does::Read(at(0, 0), num(0)))?;
    assert_eq!(rt; run.prepare(&zero), Ok(()));
    assert_eq!(rt; run.prepare(&zero), Ok(()));
    takes(&rt, alloc, &mut run, Does::Read(at(0, 0), num(1)))?;
    assert_eq!(rt; run.next(), Next::End);
    let end = event(alloc, 1, Does::End)?;
    assert_eq!(rt; run.prepare(&end), Ok(()));
    refuses(&rt, alloc, &mut run, Does::Turn)?;
    assert_eq!(rt; run.prepare(&end), Ok(()));
    assert_eq!(rt; run.next(), Next::End);
    assert_eq!(rt; run.events().len(), 1);
    assert_eq!(rt; run.advance(&end), Ok(()));
    assert_eq!(rt; run.events().len(), 2);
    is_over(&rt, alloc, &mut run)
}

const DEPTH: i32 = 20_000;

#[test]
fn calls_go_down_20_000_frames_and_return(rt: HostRuntime) -> Result<(), Fail> {
    let alloc = rt.alloc();
    let mut run = start(&rt, alloc, DEEP_CALLS, &Plan::empty(alloc), 0, 2, num(0))?;
    takes(&rt, alloc, &mut run, Does::Read(at(0, 0), num(DEPTH)))?;
    for _ in 0..DEPTH + 1 {
        takes(&rt, alloc, &mut run, Does::Call(1))?;
    }
    takes(&rt, alloc, &mut run, Does::Call(0))?;
    takes(&rt, alloc, &mut run, Does::Return(num(0)))?;
    for n in 0..DEPTH + 1 {
        takes(&rt, alloc, &mut run, Does::Return(num(n)))?;
    }
    takes(&rt, alloc, &mut run, Does::End)?;
    is_over(&rt, alloc, &mut run)
}
