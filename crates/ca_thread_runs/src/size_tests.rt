// Long and deep runs of one thread.
use crate::Run;
use crate::sources::{DEEP_CALLS, ENDLESS};
use crate::table::{Does, at, event, num, plan, start, takes};
use ca_model::Plan;
use ca_thread::Next;
use ca_tree::FunId;
use std::alloc::Global;
use std::process::Abort;
use std::test::Fail;

// A thread in a loop, after so many turns.
fn turned(rt: &impl Abort, alloc: Global, turns: u32) -> Result<Run, Fail> {
    let mut run = start(rt, alloc, ENDLESS, &Plan::empty(alloc), 0, 0, num(0))?;
    let turn = event(alloc, 0, Does::Turn)?;
    for _ in 0..turns {
        assert_eq!(rt; run.advance(&turn), Ok(()));
    }
    Ok(run)
}

// A thread so many calls deep, at a save.
fn deep(rt: &impl Abort, alloc: Global, calls: i32) -> Result<Run, Fail> {
    let plan = plan(alloc, 1, &[], &[FunId(0)], &[], &[])?;
    let mut run = start(rt, alloc, DEEP_CALLS, &plan, 0, 2, num(0))?;
    takes(rt, alloc, &mut run, Does::Read(at(0, 0), num(calls)))?;
    for _ in 0..calls {
        takes(rt, alloc, &mut run, Does::Call(1))?;
    }
    takes(rt, alloc, &mut run, Does::Call(1))?;
    takes(rt, alloc, &mut run, Does::Call(0))?;
    Ok(run)
}

#[test]
fn a_loop_takes_many_turns(rt: HostRuntime) -> Result<(), Fail> {
    let alloc = rt.alloc();
    let run = turned(&rt, alloc, 200_000)?;
    assert_eq!(rt; run.next(), Next::Turn);
    assert_eq!(rt; run.events().len(), 200_000);
    Ok(())
}

#[test]
fn a_thread_of_20_000_frames_saves(rt: HostRuntime) -> Result<(), Fail> {
    let alloc = rt.alloc();
    let mut run = deep(&rt, alloc, 20_000)?;
    assert_eq!(rt; run.next(), Next::Save);
    takes(&rt, alloc, &mut run, Does::Save)?;
    assert_eq!(rt; run.next(), Next::Return(num(0)));
    Ok(())
}
