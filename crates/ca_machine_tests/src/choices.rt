//! Steps of chosen threads, and given events.
use crate::opened::{NONE, opened, step, stepped};
use ca_events::write_trace;
use ca_machine::{Choice, FollowNo, Fresh, Machine, StepNo, Waits};
use ca_model::{Addr, Ending, Event, EventAct, Value};
use ca_sources::{EMPTY_MAIN, OPPOSED_LOCKS};
use ca_tree::{MutexId, NoMemory};
use std::alloc::Global;
use std::process::Abort;
use std::test::Fail;

// A step that goes back at a held lock.
fn step_back(alloc: Global, machine: &mut Machine, thread: u32) -> Result<(), StepNo> {
    let choice = Choice {
        fresh: Fresh::Least,
        timeout: true,
    };
    machine.step(alloc, thread, choice)
}

// A step whose `malloc` gives null.
fn step_to_null(alloc: Global, machine: &mut Machine, thread: u32) -> Result<(), StepNo> {
    let choice = Choice {
        fresh: Fresh::Null,
        timeout: false,
    };
    machine.step(alloc, thread, choice)
}

// A step whose `malloc` gives this block, if it was never used.
fn step_to_block(
    alloc: Global,
    machine: &mut Machine,
    thread: u32,
    block: u32,
) -> Result<(), StepNo> {
    if machine.shared().memory().is_used(block) {
        return Err(StepNo::NoThread);
    }
    let choice = Choice {
        fresh: Fresh::Block(block),
        timeout: false,
    };
    machine.step(alloc, thread, choice)
}

const ONE_BLOCK: &[u8] = b"int *p; int main(void) { p = malloc(sizeof(int)); return 0; }";

fn trace(alloc: Global, machine: &Machine) -> Result<String, NoMemory> {
    write_trace(alloc, machine.shared().trace())
}

#[test]
fn a_thread_steps_to_its_end(rt: HostRuntime) -> Result<(), Fail> {
    let alloc = rt.alloc();
    let mut machine = opened(&rt, alloc, EMPTY_MAIN, NONE)?;
    assert_eq!(rt; machine.ending(), Ending::Unended);
    assert_eq!(rt; step(alloc, &mut machine, 1), Err(StepNo::NoThread));
    assert_eq!(rt; step(alloc, &mut machine, 0), Ok(()));
    assert_eq!(rt; machine.ending(), Ending::Finished);
    assert_eq!(rt; step(alloc, &mut machine, 0), Err(StepNo::Ended));
    assert_eq!(rt; step(alloc, &mut machine, 1), Err(StepNo::NoThread));
    assert_eq!(rt; trace(alloc, &machine)?.as_str(), "trace 1\n0 end\n");
    Ok(())
}

#[test]
fn a_thread_goes_back_at_a_held_lock_by_choice(rt: HostRuntime) -> Result<(), Fail> {
    let alloc = rt.alloc();
    let plan = (1, [0, 1].as_slice(), [2, 4].as_slice(), [1, 8].as_slice());
    let mut machine = stepped(&rt, alloc, OPPOSED_LOCKS, plan, &[0, 0, 1, 1, 2, 2])?;
    let second = Waits::Lock {
        mutex: MutexId(1),
        owner: 2,
    };
    assert_eq!(rt; step(alloc, &mut machine, 1), Err(StepNo::Blocked(second)));
    assert_eq!(rt;
        step_back(alloc, &mut machine, 0),
        Err(StepNo::Blocked(Waits::Join(1)))
    );
    for thread in [1, 1, 2] {
        assert_eq!(rt; step_back(alloc, &mut machine, thread), Ok(()));
    }
    assert_eq!(rt; step(alloc, &mut machine, 2), Ok(()));
    // no tries are left
    assert_eq!(rt;
        step_back(alloc, &mut machine, 1),
        Err(StepNo::Blocked(second))
    );
    assert_eq!(rt; machine.ending(), Ending::Deadlock);
    assert_eq!(rt;
        trace(alloc, &machine)?.as_str(),
        "trace 10\n0 create 1\n0 create 2\n1 save\n1 lock m0\n2 save\n2 lock m1\n1 retry s2 m0\n1 lock m0\n2 retry s4 m1\n2 lock m1\n"
    );
    Ok(())
}

// The entries, after one more step, of a source with one block.
fn stored(rt: &impl Abort, alloc: Global, machine: &mut Machine) -> Result<String, Fail> {
    assert_eq!(rt; step(alloc, machine, 0), Ok(()));
    let text = trace(alloc, machine)?;
    Ok(text)
}

#[test]
fn a_block_is_the_chosen_one(rt: HostRuntime) -> Result<(), Fail> {
    let alloc = rt.alloc();
    let mut machine = opened(&rt, alloc, ONE_BLOCK, NONE)?;
    assert_eq!(rt; step(alloc, &mut machine, 0), Ok(()));
    let least = stored(&rt, alloc, &mut machine)?;
    assert_eq!(rt;
        least.as_str(),
        "trace 2\n0 malloc 1 @1.0\n0 write @0.0 @1.0\n"
    );
    let mut machine = opened(&rt, alloc, ONE_BLOCK, NONE)?;
    assert_eq!(rt; step_to_null(alloc, &mut machine, 0), Ok(()));
    let null = stored(&rt, alloc, &mut machine)?;
    assert_eq!(rt; null.as_str(), "trace 2\n0 malloc 1 0\n0 write @0.0 0\n");
    let mut machine = opened(&rt, alloc, ONE_BLOCK, NONE)?;
    assert_eq!(rt; step_to_block(alloc, &mut machine, 0, 9), Ok(()));
    let ninth = stored(&rt, alloc, &mut machine)?;
    assert_eq!(rt;
        ninth.as_str(),
        "trace 2\n0 malloc 1 @9.0\n0 write @0.0 @9.0\n"
    );
    Ok(())
}

fn followed(
    alloc: Global,
    machine: &mut Machine,
    thread: u32,
    act: EventAct,
) -> Result<(), FollowNo> {
    machine.follow(alloc, &Event { thread, act })
}

#[test]
fn only_a_step_is_followed(rt: HostRuntime) -> Result<(), Fail> {
    let alloc = rt.alloc();
    let no = Err(FollowNo::NotAStep);
    let mut machine = opened(&rt, alloc, EMPTY_MAIN, NONE)?;
    assert_eq!(rt; followed(alloc, &mut machine, 0, EventAct::Turn), no);
    assert_eq!(rt; followed(alloc, &mut machine, 1, EventAct::End), no);
    assert_eq!(rt; machine.shared().trace().len(), 0);
    assert_eq!(rt; followed(alloc, &mut machine, 0, EventAct::End), Ok(()));
    assert_eq!(rt; followed(alloc, &mut machine, 0, EventAct::End), no);
    assert_eq!(rt; machine.shared().trace().len(), 1);
    Ok(())
}

#[test]
fn a_given_block_is_followed(rt: HostRuntime) -> Result<(), Fail> {
    let alloc = rt.alloc();
    let no = Err(FollowNo::NotAStep);
    let mut machine = opened(&rt, alloc, ONE_BLOCK, NONE)?;
    let at = Addr {
        block: 0,
        offset: 0,
    };
    let seventh = Value::Addr(Addr {
        block: 7,
        offset: 0,
    });
    // the global's own block, and another number of cells
    let used = EventAct::Malloc {
        cells: 1,
        at: Value::Addr(at),
    };
    let two = EventAct::Malloc {
        cells: 2,
        at: seventh,
    };
    let one = EventAct::Malloc {
        cells: 1,
        at: seventh,
    };
    assert_eq!(rt; followed(alloc, &mut machine, 0, used), no);
    assert_eq!(rt; followed(alloc, &mut machine, 0, two), no);
    assert_eq!(rt; followed(alloc, &mut machine, 0, one), Ok(()));
    let other = EventAct::Write {
        at,
        value: Value::Num(0),
    };
    let value = EventAct::Write { at, value: seventh };
    assert_eq!(rt; followed(alloc, &mut machine, 0, other), no);
    assert_eq!(rt; followed(alloc, &mut machine, 0, value), Ok(()));
    assert_eq!(rt; followed(alloc, &mut machine, 0, EventAct::End), Ok(()));
    assert_eq!(rt; machine.ending(), Ending::Finished);
    Ok(())
}
