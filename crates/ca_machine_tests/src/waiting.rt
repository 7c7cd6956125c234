//! For what threads wait, and which are enabled.
use crate::opened::{NONE, OPPOSED, step, stepped};
use ca_machine::{Machine, Waits};
use ca_model::{Ending, FaultKind};
use ca_sources::{EMPTY_MAIN, OPPOSED_LOCKS};
use ca_tree::MutexId;
use std::alloc::Global;
use std::process::Abort;
use std::test::Fail;

fn lock(mutex: u32, owner: u32) -> Option<Waits> {
    let mutex = MutexId(mutex);
    Some(Waits::Lock { mutex, owner })
}

// For what threads 0, 1 and 2 wait.
fn waits(machine: &Machine) -> [Option<Waits>; 3] {
    [machine.waits(0), machine.waits(1), machine.waits(2)]
}

#[test]
fn opposed_locks_wait_for_one_another(rt: HostRuntime) -> Result<(), Fail> {
    let alloc = rt.alloc();
    let join = Some(Waits::Join(1));
    let mut machine = stepped(&rt, alloc, OPPOSED_LOCKS, NONE, &[0, 0, 1])?;
    assert_eq!(rt; waits(&machine), [join, None, None]);
    assert_eq!(rt; step(alloc, &mut machine, 2), Ok(()));
    assert_eq!(rt; waits(&machine), [join, lock(1, 2), lock(0, 1)]);
    assert_eq!(rt; machine.ending(), Ending::Deadlock);
    Ok(())
}

#[test]
fn the_number_of_no_thread_waits_for_nothing(rt: HostRuntime) -> Result<(), Fail> {
    let machine = stepped(&rt, rt.alloc(), OPPOSED_LOCKS, NONE, &[0, 0, 1, 2])?;
    assert_eq!(rt; machine.waits(3), None);
    assert_eq!(rt; machine.waits(4294967295), None);
    Ok(())
}

#[test]
fn where_a_retry_may_come_a_thread_waits_too(rt: HostRuntime) -> Result<(), Fail> {
    let alloc = rt.alloc();
    let machine = stepped(&rt, alloc, OPPOSED_LOCKS, OPPOSED, &[0, 0, 1, 1, 2, 2])?;
    let join = Some(Waits::Join(1));
    assert_eq!(rt; waits(&machine), [join, lock(1, 2), lock(0, 1)]);
    assert_eq!(rt; machine.ending(), Ending::Unended);
    Ok(())
}

// A thread that has ended, and one that a fault has stopped, wait for nothing.
#[test]
fn behind_an_ending_nothing_waits(rt: HostRuntime) -> Result<(), Fail> {
    let alloc = rt.alloc();
    let machine = stepped(&rt, alloc, EMPTY_MAIN, NONE, &[0])?;
    assert_eq!(rt; machine.ending(), Ending::Finished);
    assert_eq!(rt; machine.waits(0), None);
    let text =
        b"pthread_mutex_t m; void *f(void *arg) { int x = 1 / 0; return NULL; } int main(void) { pthread_t t; pthread_create(&t, NULL, f, NULL); pthread_join(t, NULL); return 0; }";
    let mut machine = stepped(&rt, alloc, text, NONE, &[0])?;
    assert_eq!(rt; machine.waits(0), Some(Waits::Join(1)));
    assert_eq!(rt; step(alloc, &mut machine, 1), Ok(()));
    assert_eq!(rt; machine.ending(), Ending::Fault(FaultKind::Arith));
    assert_eq!(rt; machine.waits(0), None);
    assert_eq!(rt; machine.waits(1), None);
    Ok(())
}

fn is_enabled(
    rt: &impl Abort,
    alloc: Global,
    machine: &Machine,
    patience: u32,
    threads: &[u32],
) -> Result<(), Fail> {
    let enabled = machine.enabled(alloc, patience)?;
    assert_eq!(rt; enabled.as_slice(), threads);
    Ok(())
}

// Behind its last entry there are two others for thread 1, and none for thread 2.
#[test]
fn patience_says_when_a_held_lock_times_out(rt: HostRuntime) -> Result<(), Fail> {
    let alloc = rt.alloc();
    let machine = stepped(&rt, alloc, OPPOSED_LOCKS, OPPOSED, &[0, 0, 1, 1, 2, 2])?;
    for (patience, threads) in [
        (0, [1, 2].as_slice()),
        (1, [1].as_slice()),
        (2, [1].as_slice()),
        (3, [1, 2].as_slice()),
    ] {
        is_enabled(&rt, alloc, &machine, patience, threads)?;
    }
    Ok(())
}

#[test]
fn who_can_move_is_enabled(rt: HostRuntime) -> Result<(), Fail> {
    let alloc = rt.alloc();
    let cases: [(&[u32], &[u32]); 5] = [
        (&[], &[0]),
        (&[0], &[0, 1]),
        (&[0, 0], &[1, 2]),
        (&[0, 0, 1], &[1, 2]),
        (&[0, 0, 1, 2], &[]),
    ];
    for (steps, threads) in cases {
        let machine = stepped(&rt, alloc, OPPOSED_LOCKS, NONE, steps)?;
        is_enabled(&rt, alloc, &machine, 10, threads)?;
    }
    let machine = stepped(&rt, alloc, EMPTY_MAIN, NONE, &[0])?;
    is_enabled(&rt, alloc, &machine, 10, &[])
}
