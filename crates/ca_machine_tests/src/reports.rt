//! Reports, word for word.
use crate::opened::{NONE, Planned, opened, stepped};
use ca_io::{MemorySink, PutNo};
use ca_machine::Machine;
use ca_model::Ending;
use ca_report::write_report;
use ca_sources::{OPPOSED_LOCKS, PRINTED_SUM, WATCH};
use std::alloc::Global;
use std::process::Abort;
use std::str::from_utf8;
use std::test::Fail;

// Puts the report of a machine; of one that can go on, as if its entries were at their limit.
fn put_report(alloc: Global, machine: &Machine, out: &mut MemorySink) -> Result<(), PutNo> {
    match machine.ending() {
        Ending::Finished => write_report(alloc, machine, Ending::Finished, out),
        Ending::Fault(kind) => write_report(alloc, machine, Ending::Fault(kind), out),
        Ending::Deadlock => write_report(alloc, machine, Ending::Deadlock, out),
        Ending::Unended => write_report(alloc, machine, Ending::Events, out),
        Ending::Events => Err(PutNo::Failed),
        Ending::Frames => Err(PutNo::Failed),
    }
}

// A source, a plan, the threads that make a step, and the report then.
type Case<'a> = (&'a [u8], Planned<'a>, &'a [u32], &'a str);

const REPORTS: [Case<'static>; 7] = [
    (
        PRINTED_SUM,
        NONE,
        &[0, 0, 0, 0],
        "trace 4\n0 write @0.0 5\n0 read @0.0 5\n0 print 350a\n0 end\nending finished\noutput 2\n5\n",
    ),
    (
        OPPOSED_LOCKS,
        NONE,
        &[0, 0, 1, 2],
        "trace 4\n0 create 1\n0 create 2\n1 lock m0\n2 lock m1\nending deadlock\nwaits 0 join 1\nwaits 1 lock m1 held 2\nwaits 2 lock m0 held 1\noutput 0\n",
    ),
    // a thread that has ended has no line, though its mutex is held
    (
        b"pthread_mutex_t k; pthread_mutex_t m; void *f(void *arg) { pthread_mutex_lock(&m); return NULL; } int main(void) { pthread_t t; printf(\"%d%%\", -7); pthread_create(&t, NULL, f, NULL); pthread_join(t, NULL); pthread_mutex_lock(&m); return 0; }",
        NONE,
        &[0, 0, 1, 1, 0],
        "trace 5\n0 print 2d3725\n0 create 1\n1 lock m1\n1 end\n0 join 1\nending deadlock\nwaits 0 lock m1 held 1\noutput 3\n-7%",
    ),
    (
        WATCH,
        (1, &[0], &[1], &[]),
        &[0, 1, 1, 1, 1, 1],
        "trace 6\n0 create 1\n1 save\n1 read @0.0 0\n1 retry s1\n1 read @0.0 0\n1 fault assert\nending fault\noutput 0\n",
    ),
    (PRINTED_SUM, NONE, &[], "trace 0\nending events\noutput 0\n"),
    (
        PRINTED_SUM,
        NONE,
        &[0, 0, 0],
        "trace 3\n0 write @0.0 5\n0 read @0.0 5\n0 print 350a\nending events\noutput 2\n5\n",
    ),
    (
        b"int *p; void f(int *q) { free(q); return; } int main(void) { p = malloc(3 * sizeof(int)); p[1] = -2147483647; f(p); return 0; }",
        NONE,
        &[0, 0, 0, 0, 0, 0, 0, 0, 0],
        "trace 9\n0 malloc 3 @1.0\n0 write @0.0 @1.0\n0 read @0.0 @1.0\n0 write @1.1 -2147483647\n0 read @0.0 @1.0\n0 call f0\n0 free @1.0\n0 return 0\n0 end\nending finished\noutput 0\n",
    ),
];

fn report(rt: &impl Abort, alloc: Global, case: Case<'static>) -> Result<MemorySink, Fail> {
    let machine = stepped(rt, alloc, case.0, case.1, case.2)?;
    let mut out = MemorySink::new(alloc, Vec::new(alloc))?;
    put_report(alloc, &machine, &mut out)?;
    Ok(out)
}

#[test]
fn reports_are_as_by_hand(rt: HostRuntime) -> Result<(), Fail> {
    let alloc = rt.alloc();
    for case in REPORTS {
        let out = report(&rt, alloc, case)?;
        assert_eq!(rt; from_utf8(out.bytes()), Ok(case.3));
    }
    Ok(())
}

// What was put of the report of a sum, where the put of this number fails.
fn front(rt: &impl Abort, alloc: Global, number: u32) -> Result<MemorySink, Fail> {
    let machine = stepped(rt, alloc, PRINTED_SUM, NONE, &[0, 0, 0, 0])?;
    let mut fails = Vec::new(alloc);
    fails.push(number)?;
    let mut out = MemorySink::new(alloc, fails)?;
    assert_eq!(rt; put_report(alloc, &machine, &mut out), Err(PutNo::Failed));
    Ok(out)
}

#[test]
fn a_report_stops_at_the_first_failed_put(rt: HostRuntime) -> Result<(), Fail> {
    let alloc = rt.alloc();
    for (number, text) in [
        (1, ""),
        (3, "trace 4\n0 write @0.0 5\n"),
        (
            7,
            "trace 4\n0 write @0.0 5\n0 read @0.0 5\n0 print 350a\n0 end\nending finished\n",
        ),
        (
            8,
            "trace 4\n0 write @0.0 5\n0 read @0.0 5\n0 print 350a\n0 end\nending finished\noutput 2\n",
        ),
    ] {
        let out = front(&rt, alloc, number)?;
        assert_eq!(rt; from_utf8(out.bytes()), Ok(text));
    }
    Ok(())
}

#[test]
fn a_report_comes_behind_what_was_put(rt: HostRuntime) -> Result<(), Fail> {
    let alloc = rt.alloc();
    let machine = opened(&rt, alloc, PRINTED_SUM, NONE)?;
    let mut out = MemorySink::new(alloc, Vec::new(alloc))?;
    put_report(alloc, &machine, &mut out)?;
    put_report(alloc, &machine, &mut out)?;
    let twice = "trace 0\nending events\noutput 0\ntrace 0\nending events\noutput 0\n";
    assert_eq!(rt; from_utf8(out.bytes()), Ok(twice));
    Ok(())
}
