// Traces that are projected and lifted: what is put of each, or the refusal.
use crate::calls::{Answer, call, failing, lines};
use ca_sources::{BOUNDED_BUFFER, EMPTY_MAIN, OPPOSED_LOCKS, SELF_LOCK, WATCH};
use std::alloc::Global;
use std::process::Abort;
use std::test::Fail;

// A command on a trace: its word, what it says of the plan, its source, its trace, and what is put.
#[derive(Clone, Copy)]
struct Row<'a> {
    word: &'a str,
    plan: &'a [&'a str],
    source: &'a [u8],
    trace: &'a str,
    text: &'a str,
}

const WATCHED: &str =
    "trace 9\n0 create 1\n1 save\n1 read @0.0 0\n1 retry s1\n0 write @0.0 1\n1 read @0.0 1\n1 end\n0 join 1\n0 end\n";

const WATCHED_PLAIN: &str =
    "trace 6\n0 create 1\n0 write @0.0 1\n1 read @0.0 1\n1 end\n0 join 1\n0 end\n";

const MADE: [Row<'static>; 10] = [
    // the attempt goes, with its read, its retry and its save
    Row {
        word: "project",
        plan: &[],
        source: WATCH,
        trace: WATCHED,
        text: WATCHED_PLAIN,
    },
    // the ending of a report is passed over
    Row {
        word: "project",
        plan: &["--depth", "0"],
        source: WATCH,
        trace: "trace 3\n0 create 1\n1 save\n1 read @0.0 0\nending unended\noutput 0\n",
        text: "trace 2\n0 create 1\n1 read @0.0 0\n",
    },
    // 21 of 25 entries
    Row {
        word: "project",
        plan: &[],
        source: OPPOSED_LOCKS,
        trace: "trace 25\n0 create 1\n0 create 2\n1 save\n1 lock m0\n2 save\n2 lock m1\n1 retry s2 m0\n2 lock m0\n2 read @0.0 0\n2 write @0.0 1\n2 unlock m0\n1 lock m0\n2 unlock m1\n1 lock m1\n2 end\n1 read @0.0 1\n1 write @0.0 2\n1 unlock m1\n1 unlock m0\n1 end\n0 join 1\n0 join 2\n0 read @0.0 2\n0 print 320a\n0 end\n",
        text: "trace 21\n0 create 1\n0 create 2\n2 lock m1\n2 lock m0\n2 read @0.0 0\n2 write @0.0 1\n2 unlock m0\n1 lock m0\n2 unlock m1\n1 lock m1\n2 end\n1 read @0.0 1\n1 write @0.0 2\n1 unlock m1\n1 unlock m0\n1 end\n0 join 1\n0 join 2\n0 read @0.0 2\n0 print 320a\n0 end\n",
    },
    // a deadlock behind two retries is one of the source
    Row {
        word: "project",
        plan: &["--limit", "1"],
        source: OPPOSED_LOCKS,
        trace: "trace 10\n0 create 1\n0 create 2\n1 save\n1 lock m0\n2 save\n2 lock m1\n1 retry s2 m0\n1 lock m0\n2 retry s4 m1\n2 lock m1\n",
        text: "trace 4\n0 create 1\n0 create 2\n1 lock m0\n2 lock m1\n",
    },
    Row {
        word: "project",
        plan: &[],
        source: EMPTY_MAIN,
        trace: "trace 0\n",
        text: "trace 0\n",
    },
    // a save stands directly before the next entry of its thread
    Row {
        word: "lift",
        plan: &[],
        source: WATCH,
        trace: WATCHED_PLAIN,
        text: "trace 7\n0 create 1\n0 write @0.0 1\n1 save\n1 read @0.0 1\n1 end\n0 join 1\n0 end\n",
    },
    // a thread that would save next has no entry any more
    Row {
        word: "lift",
        plan: &["--limit=7"],
        source: WATCH,
        trace: "trace 1\n0 create 1\n",
        text: "trace 1\n0 create 1\n",
    },
    Row {
        word: "lift",
        plan: &["--limit=0"],
        source: SELF_LOCK,
        trace: "trace 1\n0 lock m0\n",
        text: "trace 2\n0 save\n0 lock m0\n",
    },
    // no site of the thread is named, so it saves nowhere
    Row {
        word: "lift",
        plan: &["--only", "4"],
        source: OPPOSED_LOCKS,
        trace: "trace 4\n0 create 1\n0 create 2\n1 lock m0\n2 lock m1\n",
        text: "trace 5\n0 create 1\n0 create 2\n1 lock m0\n2 save\n2 lock m1\n",
    },
    Row {
        word: "lift",
        plan: &[],
        source: EMPTY_MAIN,
        trace: "trace 0\n",
        text: "trace 0\n",
    },
];

const REFUSED: [Row<'static>; 8] = [
    Row {
        word: "lift",
        plan: &[],
        source: WATCH,
        trace: "trace 3\n0 create 1\n1 read @0.0 0\n1 fault assert\n",
        text: "conair: t.txt: entry 3 is a fault\n",
    },
    // behind a fault no entry is a step, and this comes before the fault
    Row {
        word: "lift",
        plan: &[],
        source: WATCH,
        trace: "trace 4\n0 create 1\n1 read @0.0 0\n1 fault assert\n0 write @0.0 1\n",
        text: "conair: t.txt: entry 4 is not a step\n",
    },
    Row {
        word: "lift",
        plan: &[],
        source: WATCH,
        trace: "trace 1\n1 end\n",
        text: "conair: t.txt: entry 1 is not a step\n",
    },
    // a list that is lifted has no saves
    Row {
        word: "lift",
        plan: &[],
        source: WATCH,
        trace: WATCHED,
        text: "conair: t.txt: entry 2 is not a step\n",
    },
    Row {
        word: "lift",
        plan: &[],
        source: WATCH,
        trace: "trace 1\n00 end\n",
        text: "conair: t.txt: line 2 is not a trace line\n",
    },
    Row {
        word: "project",
        plan: &["--limit=0"],
        source: WATCH,
        trace: WATCHED,
        text: "conair: t.txt: entry 4 is not a step\n",
    },
    Row {
        word: "project",
        plan: &[],
        source: WATCH,
        trace: "trace 3\n0 create 1\n1 save\n1 read @0.0 1\n",
        text: "conair: t.txt: entry 3 is not a step\n",
    },
    Row {
        word: "project",
        plan: &[],
        source: WATCH,
        trace: "trace 1\n0 jump\n",
        text: "conair: t.txt: line 2 is not a trace line\n",
    },
];

fn answer(
    alloc: Global,
    word: &str,
    plan: &[&str],
    source: &[u8],
    trace: &[u8],
) -> Result<Answer, Fail> {
    call(alloc, &[word, "a.c", "t.txt"], plan, source, trace)
}

// What is put of a trace that is taken.
fn made(
    rt: &impl Abort,
    alloc: Global,
    word: &str,
    plan: &[&str],
    source: &[u8],
    trace: &[u8],
) -> Result<Vec<u8>, Fail> {
    let found = answer(alloc, word, plan, source, trace)?;
    assert_eq!(rt; found.err.len(), 0);
    assert_eq!(rt; found.status, 0);
    Ok(found.out)
}

#[test]
fn traces_are_projected_and_lifted(rt: HostRuntime) -> Result<(), Fail> {
    for row in MADE {
        let trace = row.trace.as_bytes();
        let text = made(&rt, rt.alloc(), row.word, row.plan, row.source, trace)?;
        assert_eq!(&rt; text.as_slice(), row.text.as_bytes());
    }
    Ok(())
}

#[test]
fn other_traces_are_refused(rt: HostRuntime) -> Result<(), Fail> {
    for row in REFUSED {
        let trace = row.trace.as_bytes();
        let found = answer(rt.alloc(), row.word, row.plan, row.source, trace)?;
        assert_eq!(&rt; found.out.len(), 0);
        assert_eq!(&rt; found.err.as_slice(), row.text.as_bytes());
        assert_eq!(&rt; found.status, 9);
    }
    Ok(())
}

#[test]
fn a_number_that_is_no_site_comes_before_the_trace(rt: HostRuntime) -> Result<(), Fail> {
    for word in ["project", "lift"] {
        let found = answer(rt.alloc(), word, &["--only", "9"], WATCH, b"")?;
        assert_eq!(&rt; found.err.as_slice(), b"conair: no site s9\n".as_slice());
        assert_eq!(&rt; found.status, 2);
    }
    Ok(())
}

#[test]
fn a_projection_is_cut_short(rt: HostRuntime) -> Result<(), Fail> {
    let alloc = rt.alloc();
    let words = ["project", "a.c", "t.txt"];
    let trace = WATCHED.as_bytes();
    for (load, text) in [
        (1, "conair: cannot read a.c\n"),
        (2, "conair: cannot read t.txt\n"),
    ] {
        let found = failing(alloc, &words, WATCH, trace, load, 0)?;
        assert_eq!(&rt; found.err.as_slice(), text.as_bytes());
        assert_eq!(&rt; found.status, 6);
    }
    for put in 1..8u32 {
        let found = failing(alloc, &words, WATCH, trace, 0, put)?;
        let front = lines(alloc, WATCHED_PLAIN.as_bytes(), put.saturating_sub(1))?;
        assert_eq!(&rt; found.out.as_slice(), front.as_slice());
        assert_eq!(&rt; found.status, 7);
    }
    Ok(())
}

// A report, its projection, the lifted list of that, and the projection of this again.
fn goes_round(
    rt: &impl Abort,
    alloc: Global,
    plan: &[&str],
    source: &[u8],
    report: &[u8],
) -> Result<(), Fail> {
    let projection = made(rt, alloc, "project", plan, source, report)?;
    made(rt, alloc, "check", &["--plain"], source, &projection)?;
    let list = made(rt, alloc, "lift", plan, source, &projection)?;
    made(rt, alloc, "check", plan, source, &list)?;
    let again = made(rt, alloc, "project", plan, source, &list)?;
    assert_eq!(rt; again.as_slice(), projection.as_slice());
    Ok(())
}

#[test]
fn a_buffer_under_ten_seeds_goes_round(rt: HostRuntime) -> Result<(), Fail> {
    let alloc = rt.alloc();
    for seed in 0..10u32 {
        let word = format!(in alloc; "--seed={seed}")?;
        let run = call(
            alloc,
            &["run", "a.c", "--limit=10000"],
            &[word.as_str()],
            BOUNDED_BUFFER,
            b"",
        )?;
        assert_eq!(&rt; run.status, 0);
        goes_round(&rt, alloc, &["--limit=10000"], BOUNDED_BUFFER, &run.out)?;
    }
    Ok(())
}
