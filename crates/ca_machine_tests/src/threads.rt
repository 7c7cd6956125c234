//! As many threads as there may be.
use crate::opened::{NONE, go_on, list, opened, step};
use ca_machine::{Machine, StepNo, Waits};
use ca_model::{Ending, Event, EventAct, FaultKind};
use ca_sched::Schedule;
use ca_tree::MutexId;
use ca_worked::repeated;
use std::alloc::Global;
use std::process::Abort;
use std::test::Fail;

// A `main` that goes on to create threads.
const CREATES: &[u8] = b"void *f(void *arg) { return NULL; }
int main(void) {
  pthread_t t;
  while (1) pthread_create(&t, NULL, f, NULL);
  return 0;
}";

// Two entries a round: the turn of the loop, and the create or, with 64 threads, a fault.
#[test]
fn there_are_at_most_64_threads(rt: HostRuntime) -> Result<(), Fail> {
    let alloc = rt.alloc();
    let mut machine = opened(&rt, alloc, CREATES, NONE)?;
    for _ in 0..63 {
        assert_eq!(rt; step(alloc, &mut machine, 0), Ok(()));
        assert_eq!(rt; step(alloc, &mut machine, 0), Ok(()));
    }
    assert_eq!(rt; machine.shared().threads(), 64);
    assert_eq!(rt; machine.shared().frames(), 64);
    assert_eq!(rt; step(alloc, &mut machine, 0), Ok(()));
    assert_eq!(rt; step(alloc, &mut machine, 63), Ok(()));
    // a thread that has ended keeps its number
    assert_eq!(rt; step(alloc, &mut machine, 0), Ok(()));
    assert_eq!(rt; machine.ending(), Ending::Fault(FaultKind::Thread));
    assert_eq!(rt; machine.shared().threads(), 64);
    let last = Event {
        thread: 0,
        act: EventAct::Fault(FaultKind::Thread),
    };
    assert_eq!(rt; machine.shared().trace().last(), Some(&last));
    assert_eq!(rt; machine.shared().trace().len(), 129);
    assert_eq!(rt; step(alloc, &mut machine, 64), Err(StepNo::NoThread));
    assert_eq!(rt; step(alloc, &mut machine, 63), Err(StepNo::Ended));
    Ok(())
}

// Each thread counts itself, creates the next one up to the 63rd, and waits for it.
const CHAIN: &[u8] = b"int n;
void *f(void *arg) {
  pthread_t t;
  n = n + 1;
  if (n < 63) {
    pthread_create(&t, NULL, f, NULL);
    pthread_join(t, NULL);
  }
  return NULL;
}
int main(void) {
  pthread_t t;
  pthread_create(&t, NULL, f, NULL);
  pthread_join(t, NULL);
  printf(\"%d\\n\", n);
  return 0;
}";

// A create, two reads and a write, and an end for each of 63 threads, a join for each, and a read, a print and the end of
// `main`: whatever the schedule, since one thread alone can move.
fn is_chain(rt: &impl Abort, alloc: Global, schedule: &mut Schedule) -> Result<(), Fail> {
    let mut machine = opened(rt, alloc, CHAIN, NONE)?;
    let ending = go_on(alloc, &mut machine, schedule, 10_000, 10)?;
    assert_eq!(rt; ending, Ending::Finished);
    assert_eq!(rt; machine.shared().trace().len(), 6 * 63 + 3);
    assert_eq!(rt; machine.shared().threads(), 64);
    assert_eq!(rt; machine.shared().output(), b"63\n".as_slice());
    Ok(())
}

#[test]
fn a_chain_of_64_threads_counts_to_63(rt: HostRuntime) -> Result<(), Fail> {
    let alloc = rt.alloc();
    let mut numbers = list(alloc, &[63, 0, 64])?;
    is_chain(&rt, alloc, &mut numbers)?;
    for seed in [0, 1, 4294967295] {
        let mut words = Schedule::seed(seed);
        is_chain(&rt, alloc, &mut words)?;
    }
    Ok(())
}

// Where the last thread locks a mutex that it has, each other waits for the next one.
fn stuck_chain(rt: &impl Abort, alloc: Global) -> Result<Machine, Fail> {
    let front = b"pthread_mutex_t m; int n;
void *f(void *arg) {
  pthread_t t;
  n = n + 1;
  if (n < 63) {
    pthread_create(&t, NULL, f, NULL);
    pthread_join(t, NULL);
  }
  ";
    let back = b"return NULL;
}
int main(void) {
  pthread_t t;
  pthread_create(&t, NULL, f, NULL);
  pthread_join(t, NULL);
  return 0;
}";
    let text = repeated(alloc, front, b"pthread_mutex_lock(&m); ", 2, back)?;
    let mut machine = opened(rt, alloc, &text, NONE)?;
    let mut schedule = list(alloc, &[])?;
    let ending = go_on(alloc, &mut machine, &mut schedule, 10_000, 10)?;
    assert_eq!(rt; ending, Ending::Deadlock);
    Ok(machine)
}

#[test]
fn each_of_64_threads_waits(rt: HostRuntime) -> Result<(), Fail> {
    let alloc = rt.alloc();
    let machine = stuck_chain(&rt, alloc)?;
    for thread in 0..63 {
        assert_eq!(rt; machine.waits(thread), Some(Waits::Join(thread + 1)));
    }
    let own = Waits::Lock {
        mutex: MutexId(0),
        owner: 63,
    };
    assert_eq!(rt; machine.waits(63), Some(own));
    assert_eq!(rt; machine.waits(64), None);
    let enabled = machine.enabled(alloc, 0)?;
    assert_eq!(rt; enabled.as_slice(), [].as_slice());
    Ok(())
}
