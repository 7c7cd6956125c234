//! Runs by schedules: their entries, their ending and the size of their output, by hand.
use crate::opened::{NONE, OPPOSED, Planned, go_on, list, opened, step};
use ca_events::write_trace;
use ca_machine::{Machine, StepNo};
use ca_model::{Ending, Event, EventAct, FaultKind};
use ca_sched::Schedule;
use ca_sources::{
    BOUNDED_BUFFER, EMPTY_MAIN, NULL_POINTER, OPPOSED_LOCKS, PRINTED_SUM, SELF_LOCK, WATCH,
};
use ca_tree::{FunId, NoMemory};
use std::alloc::Global;
use std::process::Abort;
use std::test::Fail;

// A source, a plan, the numbers of a schedule, the limit on entries, and the run.
type Case<'a> = (&'a [u8], Planned<'a>, &'a [u32], u32, &'a str);

fn shown(alloc: Global, machine: &Machine, ending: Ending) -> Result<String, NoMemory> {
    let trace = write_trace(alloc, machine.shared().trace())?;
    let output = machine.shared().output().len();
    let text = format!(in alloc; "{trace}ending {}\noutput {output}\n", ending.word())?;
    Ok(text)
}

fn ran(rt: &impl Abort, alloc: Global, case: Case<'static>) -> Result<String, Fail> {
    let mut machine = opened(rt, alloc, case.0, case.1)?;
    let mut schedule = list(alloc, case.2)?;
    let ending = go_on(alloc, &mut machine, &mut schedule, case.3, 10)?;
    let text = shown(alloc, &machine, ending)?;
    Ok(text)
}

fn each_is_as_by_hand(rt: &impl Abort, alloc: Global, cases: &[Case<'static>]) -> Result<(), Fail> {
    for case in cases {
        assert_eq!(rt; ran(rt, alloc, *case)?.as_str(), case.4);
    }
    Ok(())
}

// Nothing is hardened.
const PLAIN: [Case<'static>; 4] = [
    (
        EMPTY_MAIN,
        NONE,
        &[],
        200,
        "trace 1\n0 end\nending finished\noutput 0\n",
    ),
    (
        PRINTED_SUM,
        NONE,
        &[],
        200,
        "trace 4\n0 write @0.0 5\n0 read @0.0 5\n0 print 350a\n0 end\nending finished\noutput 2\n",
    ),
    (
        b"pthread_mutex_t m; void *f(void *arg) { pthread_mutex_lock(&m); return NULL; } int main(void) { pthread_t t; pthread_create(&t, NULL, f, NULL); pthread_join(t, NULL); pthread_mutex_lock(&m); return 0; }",
        NONE,
        &[],
        200,
        "trace 4\n0 create 1\n1 lock m0\n1 end\n0 join 1\nending deadlock\noutput 0\n",
    ),
    (
        b"int *p; int main(void) { p = malloc(2 * sizeof(int)); p[1] = 7; free(p); return 0; }",
        NONE,
        &[],
        200,
        "trace 7\n0 malloc 2 @1.0\n0 write @0.0 @1.0\n0 read @0.0 @1.0\n0 write @1.1 7\n0 read @0.0 @1.0\n0 free @1.0\n0 end\nending finished\noutput 0\n",
    ),
];

#[test]
fn plain_runs_are_as_by_hand(rt: HostRuntime) -> Result<(), Fail> {
    each_is_as_by_hand(&rt, rt.alloc(), &PLAIN)
}

// A number in the list that isn't enabled is dropped, be it of no thread or of one that waits.
const DROPPED: [Case<'static>; 3] = [
    (
        PRINTED_SUM,
        NONE,
        &[7, 1, 0, 64, 4294967295],
        200,
        "trace 4\n0 write @0.0 5\n0 read @0.0 5\n0 print 350a\n0 end\nending finished\noutput 2\n",
    ),
    (
        OPPOSED_LOCKS,
        NONE,
        &[5, 0, 1, 2, 0, 0, 2000000000, 2],
        200,
        "trace 4\n0 create 1\n1 lock m0\n0 create 2\n2 lock m1\nending deadlock\noutput 0\n",
    ),
    (
        WATCH,
        NONE,
        &[0, 0, 0, 2, 0, 1],
        200,
        "trace 6\n0 create 1\n0 write @0.0 1\n1 read @0.0 1\n1 end\n0 join 1\n0 end\nending finished\noutput 0\n",
    ),
];

#[test]
fn numbers_that_are_not_enabled_are_dropped(rt: HostRuntime) -> Result<(), Fail> {
    each_is_as_by_hand(&rt, rt.alloc(), &DROPPED)
}

// Each kind of fault.
const FAULTS: [Case<'static>; 7] = [
    (
        WATCH,
        (0, &[0], &[1], &[]),
        &[0, 1, 1, 1],
        200,
        "trace 4\n0 create 1\n1 save\n1 read @0.0 0\n1 fault assert\nending fault\noutput 0\n",
    ),
    (
        NULL_POINTER,
        NONE,
        &[0, 1, 1],
        200,
        "trace 3\n0 create 1\n1 read @0.0 0\n1 fault pointer\nending fault\noutput 0\n",
    ),
    (
        b"int main(void) { int *p; p = malloc(sizeof(int)); free(p); free(p); return 0; }",
        NONE,
        &[],
        200,
        "trace 3\n0 malloc 1 @0.0\n0 free @0.0\n0 fault pointer\nending fault\noutput 0\n",
    ),
    (
        b"int main(void) { int x = 1 / 0; return 0; }",
        NONE,
        &[],
        200,
        "trace 1\n0 fault arith\nending fault\noutput 0\n",
    ),
    (
        b"pthread_mutex_t m; int main(void) { pthread_mutex_unlock(&m); return 0; }",
        NONE,
        &[],
        200,
        "trace 1\n0 fault mutex\nending fault\noutput 0\n",
    ),
    (
        b"int main(void) { pthread_t t; pthread_join(t, NULL); return 0; }",
        NONE,
        &[],
        200,
        "trace 1\n0 fault thread\nending fault\noutput 0\n",
    ),
    (
        b"int g; void *f(void *arg) { int **p = arg; int *q = *p; return NULL; } int main(void) { pthread_t t; g = 5; pthread_create(&t, NULL, f, &g); pthread_join(t, NULL); return 0; }",
        NONE,
        &[],
        200,
        "trace 3\n0 write @0.0 5\n0 create 1\n1 fault kind\nending fault\noutput 0\n",
    ),
];

#[test]
fn faults_are_as_by_hand(rt: HostRuntime) -> Result<(), Fail> {
    each_is_as_by_hand(&rt, rt.alloc(), &FAULTS)
}

// A limit on entries ends a run that could go on, and no other.
const LIMITED: [Case<'static>; 5] = [
    (
        EMPTY_MAIN,
        NONE,
        &[],
        0,
        "trace 0\nending events\noutput 0\n",
    ),
    (
        EMPTY_MAIN,
        NONE,
        &[],
        1,
        "trace 1\n0 end\nending finished\noutput 0\n",
    ),
    (
        SELF_LOCK,
        NONE,
        &[],
        1,
        "trace 1\n0 lock m0\nending deadlock\noutput 0\n",
    ),
    (
        b"int main(void) { int x = 1 / 0; return 0; }",
        NONE,
        &[],
        1,
        "trace 1\n0 fault arith\nending fault\noutput 0\n",
    ),
    (
        b"int main(void) { while (1) { } return 0; }",
        NONE,
        &[],
        3,
        "trace 3\n0 turn\n0 turn\n0 turn\nending events\noutput 0\n",
    ),
];

#[test]
fn a_limit_ends_what_could_go_on(rt: HostRuntime) -> Result<(), Fail> {
    each_is_as_by_hand(&rt, rt.alloc(), &LIMITED)
}

// Saves and retries.
const HARDENED: [Case<'static>; 6] = [
    (
        WATCH,
        (100, &[0], &[1], &[]),
        &[0, 1, 1, 1, 0],
        200,
        "trace 9\n0 create 1\n1 save\n1 read @0.0 0\n1 retry s1\n0 write @0.0 1\n1 read @0.0 1\n1 end\n0 join 1\n0 end\nending finished\noutput 0\n",
    ),
    (
        WATCH,
        (2, &[0], &[1], &[]),
        &[0, 1, 1, 1, 1, 1, 1, 1],
        200,
        "trace 8\n0 create 1\n1 save\n1 read @0.0 0\n1 retry s1\n1 read @0.0 0\n1 retry s1\n1 read @0.0 0\n1 fault assert\nending fault\noutput 0\n",
    ),
    (
        NULL_POINTER,
        (100, &[0], &[1], &[]),
        &[0, 1, 1, 1, 0, 0],
        200,
        "trace 14\n0 create 1\n1 save\n1 read @0.0 0\n1 retry s1\n0 malloc 1 @1.0\n0 write @0.0 @1.0\n1 read @0.0 @1.0\n0 read @0.0 @1.0\n1 read @1.0 0\n0 write @1.0 7\n1 print 300a\n1 end\n0 join 1\n0 end\nending finished\noutput 2\n",
    ),
    (
        OPPOSED_LOCKS,
        OPPOSED,
        &[0, 0, 1, 1, 2, 2],
        200,
        "trace 25\n0 create 1\n0 create 2\n1 save\n1 lock m0\n2 save\n2 lock m1\n1 retry s2 m0\n2 lock m0\n2 read @0.0 0\n2 write @0.0 1\n2 unlock m0\n1 lock m0\n2 unlock m1\n1 lock m1\n2 end\n1 read @0.0 1\n1 write @0.0 2\n1 unlock m1\n1 unlock m0\n1 end\n0 join 1\n0 join 2\n0 read @0.0 2\n0 print 320a\n0 end\nending finished\noutput 2\n",
    ),
    (
        OPPOSED_LOCKS,
        (1, &[0, 1], &[2, 4], &[1, 8]),
        &[0, 0, 1, 1, 2, 2, 1, 1, 2, 2],
        200,
        "trace 10\n0 create 1\n0 create 2\n1 save\n1 lock m0\n2 save\n2 lock m1\n1 retry s2 m0\n1 lock m0\n2 retry s4 m1\n2 lock m1\nending deadlock\noutput 0\n",
    ),
    (
        SELF_LOCK,
        (2, &[0], &[2], &[1]),
        &[],
        200,
        "trace 6\n0 save\n0 lock m0\n0 retry s2 m0\n0 lock m0\n0 retry s2 m0\n0 lock m0\nending deadlock\noutput 0\n",
    ),
];

#[test]
fn retries_are_as_by_hand(rt: HostRuntime) -> Result<(), Fail> {
    each_is_as_by_hand(&rt, rt.alloc(), &HARDENED)
}

#[test]
fn a_run_goes_on_behind_its_limit(rt: HostRuntime) -> Result<(), Fail> {
    let alloc = rt.alloc();
    let mut machine = opened(&rt, alloc, PRINTED_SUM, NONE)?;
    let mut schedule = list(alloc, &[])?;
    for (events, ending) in [
        (0, Ending::Events),
        (3, Ending::Events),
        (4, Ending::Finished),
        (4, Ending::Finished),
    ] {
        assert_eq!(rt;
            go_on(alloc, &mut machine, &mut schedule, events, 10),
            Ok(ending)
        );
        assert_eq!(rt; machine.shared().trace().len(), events as usize);
    }
    assert_eq!(rt; machine.shared().output(), b"5\n".as_slice());
    Ok(())
}

#[test]
fn frames_are_limited(rt: HostRuntime) -> Result<(), Fail> {
    let alloc = rt.alloc();
    let text = b"void f(void) { f(); } int main(void) { f(); return 0; }";
    let mut machine = opened(&rt, alloc, text, NONE)?;
    let mut schedule = list(alloc, &[])?;
    let ending = go_on(alloc, &mut machine, &mut schedule, 200_000, 10);
    assert_eq!(rt; ending, Ok(Ending::Frames));
    assert_eq!(rt; machine.shared().trace().len(), 19_999);
    assert_eq!(rt; machine.shared().frames(), 20_000);
    assert_eq!(rt; step(alloc, &mut machine, 0), Err(StepNo::Frames));
    // the limit is the runner's, and a given event may go beyond it
    let call = Event {
        thread: 0,
        act: EventAct::Call(FunId(0)),
    };
    assert_eq!(rt; machine.follow(alloc, &call), Ok(()));
    assert_eq!(rt; machine.shared().frames(), 20_001);
    Ok(())
}

// A run by a seed ends so, and prints the six lines of eight bytes where it finishes.
fn ends_by_seed(
    rt: &impl Abort,
    alloc: Global,
    plan: Planned<'static>,
    seed: u32,
) -> Result<Ending, Fail> {
    let mut machine = opened(rt, alloc, BOUNDED_BUFFER, plan)?;
    let mut schedule = Schedule::seed(seed);
    let ending = go_on(alloc, &mut machine, &mut schedule, 200_000, 10)?;
    if ending == Ending::Finished {
        assert_eq!(rt; machine.shared().output().len(), 48);
    }
    Ok(ending)
}

#[test]
fn a_bounded_buffer_finishes_or_reads_too_early(rt: HostRuntime) -> Result<(), Fail> {
    let alloc = rt.alloc();
    for seed in 0..6 {
        let ending = ends_by_seed(&rt, alloc, NONE, seed)?;
        let early = ending == Ending::Fault(FaultKind::Pointer);
        assert!(rt; early || ending == Ending::Finished);
    }
    Ok(())
}

#[test]
fn a_hardened_bounded_buffer_finishes(rt: HostRuntime) -> Result<(), Fail> {
    let alloc = rt.alloc();
    for seed in 0..6 {
        let ending = ends_by_seed(&rt, alloc, (10_000, &[0], &[2], &[5]), seed)?;
        assert_eq!(rt; ending, Ending::Finished);
    }
    Ok(())
}
