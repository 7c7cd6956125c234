// Worked sources, each under words and with the status and the report that the definitions give.
use crate::calls::{answer_to, call, failing, joined, lines};
use ca_sources::{
    BOUNDED_BUFFER, EMPTY_MAIN, GIVEN_BLOCK, LOOP_POINTS, NULL_POINTER, OPPOSED_LOCKS, SELF_LOCK,
    THROUGH_CALLER, WATCH,
};
use std::alloc::{AllocError, Global};
use std::process::Abort;
use std::test::Fail;

// A run: its words behind `run a.c`, its source, its status and its report.
#[derive(Clone, Copy)]
struct Row<'a> {
    words: &'a [&'a str],
    source: &'a [u8],
    status: u8,
    report: &'a str,
}

const ROWS: [Row<'static>; 16] = [
    // a run without a plan faults where the other thread is late
    Row {
        words: &["--plain", "--schedule", "0,1,1"],
        source: WATCH,
        status: 1,
        report: "trace 3\n0 create 1\n1 read @0.0 0\n1 fault assert\nending fault\noutput 0\n",
    },
    // locks in opposed orders
    Row {
        words: &["--plain", "--schedule", "0,0,1,2"],
        source: OPPOSED_LOCKS,
        status: 4,
        report: "trace 4\n0 create 1\n0 create 2\n1 lock m0\n2 lock m1\nending deadlock\nwaits 0 join 1\nwaits 1 lock m1 held 2\nwaits 2 lock m0 held 1\noutput 0\n",
    },
    // a lock that is held by its own thread
    Row {
        words: &["--plain"],
        source: SELF_LOCK,
        status: 4,
        report: "trace 1\n0 lock m0\nending deadlock\nwaits 0 lock m0 held 0\noutput 0\n",
    },
    // a cell of the heap
    Row {
        words: &["--plain"],
        source: b"int main(void) { int *p = malloc(2 * sizeof(int)); *p = 4; printf(\"%d\\n\", p[0]); free(p); return 0; }",
        status: 0,
        report: "trace 6\n0 malloc 2 @0.0\n0 write @0.0 4\n0 read @0.0 4\n0 print 340a\n0 free @0.0\n0 end\nending finished\noutput 2\n4\n",
    },
    // a call
    Row {
        words: &["--plain"],
        source: b"int g; int add(int x) { return x + g; } int main(void) { int y = add(2); printf(\"%d\\n\", y); return 0; }",
        status: 0,
        report: "trace 5\n0 call f0\n0 read @0.0 0\n0 return 2\n0 print 320a\n0 end\nending finished\noutput 2\n2\n",
    },
    // an else goes with the nearest if
    Row {
        words: &[],
        source: b"int a; int b; int x; int main(void) { if (a) if (b) x = 1; else x = 2; return 0; }",
        status: 0,
        report: "trace 2\n0 read @0.0 0\n0 end\nending finished\noutput 0\n",
    },
    // comparisons go from left to right
    Row {
        words: &[],
        source: b"int main(void) { int a = 3; int b = 2; int c = 1; int d = a < b < c; printf(\"%d\\n\", d); return 0; }",
        status: 0,
        report: "trace 2\n0 print 310a\n0 end\nending finished\noutput 2\n1\n",
    },
    // a value that is none
    Row {
        words: &[],
        source: b"int main(void) { int x = 2147483647; int y = x + 1; return 0; }",
        status: 1,
        report: "trace 1\n0 fault arith\nending fault\noutput 0\n",
    },
    // a value that is none
    Row {
        words: &[],
        source: b"int main(void) { int x = 1 / 0; return 0; }",
        status: 1,
        report: "trace 1\n0 fault arith\nending fault\noutput 0\n",
    },
    // a value that is none
    Row {
        words: &[],
        source: b"int main(void) { int a = -2147483647 - 1; int b = a % -1; return 0; }",
        status: 1,
        report: "trace 1\n0 fault arith\nending fault\noutput 0\n",
    },
    // an unlock of a free mutex
    Row {
        words: &[],
        source: b"pthread_mutex_t m; int main(void) { pthread_mutex_unlock(&m); return 0; }",
        status: 1,
        report: "trace 1\n0 fault mutex\nending fault\noutput 0\n",
    },
    // a join of no thread
    Row {
        words: &[],
        source: b"int main(void) { pthread_t t; pthread_join(t, NULL); return 0; }",
        status: 1,
        report: "trace 1\n0 fault thread\nending fault\noutput 0\n",
    },
    // a number read as a pointer
    Row {
        words: &[],
        source: b"int g; void *f(void *arg) { int **p = arg; int *q = *p; return NULL; } int main(void) { pthread_t t; g = 5; pthread_create(&t, NULL, f, &g); pthread_join(t, NULL); return 0; }",
        status: 1,
        report: "trace 3\n0 write @0.0 5\n0 create 1\n1 fault kind\nending fault\noutput 0\n",
    },
    // the most entries
    Row {
        words: &["--events", "3"],
        source: b"int main(void) { while (1) { } return 0; }",
        status: 5,
        report: "trace 3\n0 turn\n0 turn\n0 turn\nending events\noutput 0\n",
    },
    // a block of no cells
    Row {
        words: &["--plain"],
        source: b"int main(void) { int *p = malloc(0 * sizeof(int)); free(p); return 0; }",
        status: 0,
        report: "trace 3\n0 malloc 0 0\n0 free 0\n0 end\nending finished\noutput 0\n",
    },
    // a block that is freed twice
    Row {
        words: &["--plain"],
        source: b"int main(void) { int *p = malloc(sizeof(int)); free(p); free(p); return 0; }",
        status: 1,
        report: "trace 3\n0 malloc 1 @0.0\n0 free @0.0\n0 fault pointer\nending fault\noutput 0\n",
    },
];

// A run of a source that is hardened: what its words say of the plan and of the runner, its source, its status, its report,
// and what a check of the report tells.
#[derive(Clone, Copy)]
struct Recovery<'a> {
    plan: &'a [&'a str],
    runner: &'a [&'a str],
    source: &'a [u8],
    status: u8,
    report: &'a str,
    verdict: &'a str,
}

const RECOVERIES: [Recovery<'static>; 14] = [
    // the thread that was too early goes back once
    Recovery {
        plan: &[],
        runner: &["--schedule", "0,1,1,1,0"],
        source: WATCH,
        status: 0,
        report: "trace 9\n0 create 1\n1 save\n1 read @0.0 0\n1 retry s1\n0 write @0.0 1\n1 read @0.0 1\n1 end\n0 join 1\n0 end\nending finished\noutput 0\n",
        verdict: "accepted 9 finished\n",
    },
    // no try is left
    Recovery {
        plan: &["--limit", "0"],
        runner: &["--schedule", "0,1,1,1"],
        source: WATCH,
        status: 1,
        report: "trace 4\n0 create 1\n1 save\n1 read @0.0 0\n1 fault assert\nending fault\noutput 0\n",
        verdict: "accepted 4 fault\n",
    },
    // two tries, and none is left
    Recovery {
        plan: &["--limit", "2"],
        runner: &["--schedule", "0,1,1,1,1,1,1,1"],
        source: WATCH,
        status: 1,
        report: "trace 8\n0 create 1\n1 save\n1 read @0.0 0\n1 retry s1\n1 read @0.0 0\n1 retry s1\n1 read @0.0 0\n1 fault assert\nending fault\noutput 0\n",
        verdict: "accepted 8 fault\n",
    },
    // only the second lock of one thread may go back
    Recovery {
        plan: &["--only", "2"],
        runner: &["--schedule", "0,0,1,1,2"],
        source: OPPOSED_LOCKS,
        status: 0,
        report: "trace 24\n0 create 1\n0 create 2\n1 save\n1 lock m0\n2 lock m1\n1 retry s2 m0\n2 lock m0\n2 read @0.0 0\n2 write @0.0 1\n2 unlock m0\n1 lock m0\n2 unlock m1\n1 lock m1\n2 end\n1 read @0.0 1\n1 write @0.0 2\n1 unlock m1\n1 unlock m0\n1 end\n0 join 1\n0 join 2\n0 read @0.0 2\n0 print 320a\n0 end\nending finished\noutput 2\n2\n",
        verdict: "accepted 24 finished\n",
    },
    // locks in opposed orders: one thread gives its mutex back
    Recovery {
        plan: &[],
        runner: &["--schedule", "0,0,1,1,2,2"],
        source: OPPOSED_LOCKS,
        status: 0,
        report: "trace 25\n0 create 1\n0 create 2\n1 save\n1 lock m0\n2 save\n2 lock m1\n1 retry s2 m0\n2 lock m0\n2 read @0.0 0\n2 write @0.0 1\n2 unlock m0\n1 lock m0\n2 unlock m1\n1 lock m1\n2 end\n1 read @0.0 1\n1 write @0.0 2\n1 unlock m1\n1 unlock m0\n1 end\n0 join 1\n0 join 2\n0 read @0.0 2\n0 print 320a\n0 end\nending finished\noutput 2\n2\n",
        verdict: "accepted 25 finished\n",
    },
    // both go back, and each takes its own mutex again
    Recovery {
        plan: &["--limit", "1"],
        runner: &["--schedule", "0,0,1,1,2,2,1,1,2,2"],
        source: OPPOSED_LOCKS,
        status: 4,
        report: "trace 10\n0 create 1\n0 create 2\n1 save\n1 lock m0\n2 save\n2 lock m1\n1 retry s2 m0\n1 lock m0\n2 retry s4 m1\n2 lock m1\nending deadlock\nwaits 0 join 1\nwaits 1 lock m1 held 2\nwaits 2 lock m0 held 1\noutput 0\n",
        verdict: "accepted 10 deadlock\n",
    },
    // a lock that its own thread holds stays held, however often it goes back
    Recovery {
        plan: &["--limit", "2"],
        runner: &[],
        source: SELF_LOCK,
        status: 4,
        report: "trace 6\n0 save\n0 lock m0\n0 retry s2 m0\n0 lock m0\n0 retry s2 m0\n0 lock m0\nending deadlock\nwaits 0 lock m0 held 0\noutput 0\n",
        verdict: "accepted 6 deadlock\n",
    },
    // a pointer that is still null
    Recovery {
        plan: &[],
        runner: &["--schedule", "0,1,1,1,0,0,0,0,0"],
        source: NULL_POINTER,
        status: 0,
        report: "trace 15\n0 create 1\n1 save\n1 read @0.0 0\n1 retry s1\n0 malloc 1 @1.0\n0 write @0.0 @1.0\n0 save\n0 read @0.0 @1.0\n0 write @1.0 7\n1 read @0.0 @1.0\n1 read @1.0 7\n1 print 370a\n1 end\n0 join 1\n0 end\nending finished\noutput 2\n7\n",
        verdict: "accepted 15 finished\n",
    },
    // a block of the attempt is given back
    Recovery {
        plan: &[],
        runner: &["--schedule", "0,1,1,1,1,0"],
        source: GIVEN_BLOCK,
        status: 0,
        report: "trace 12\n0 create 1\n1 save\n1 malloc 2 @1.0\n1 read @0.0 0\n1 retry s1 @1.0\n0 write @0.0 1\n1 malloc 2 @2.0\n1 read @0.0 1\n1 free @2.0\n1 end\n0 join 1\n0 end\nending finished\noutput 0\n",
        verdict: "accepted 12 finished\n",
    },
    // the caller saves
    Recovery {
        plan: &[],
        runner: &[],
        source: THROUGH_CALLER,
        status: 0,
        report: "trace 9\n0 create 1\n1 save\n0 write @0.0 1\n1 read @0.0 1\n1 call f0\n1 return 0\n1 end\n0 join 1\n0 end\nending finished\noutput 0\n",
        verdict: "accepted 9 finished\n",
    },
    // a loop
    Recovery {
        plan: &[],
        runner: &[],
        source: LOOP_POINTS,
        status: 0,
        report: "trace 5\n0 save\n0 turn\n0 read @1.0 0\n0 read @0.0 0\n0 end\nending finished\noutput 0\n",
        verdict: "accepted 5 finished\n",
    },
    // a block of no cells
    Recovery {
        plan: &[],
        runner: &[],
        source: b"int main(void) { int *p = malloc(0 * sizeof(int)); free(p); return 0; }",
        status: 0,
        report: "trace 4\n0 save\n0 malloc 0 0\n0 free 0\n0 end\nending finished\noutput 0\n",
        verdict: "accepted 4 finished\n",
    },
    // one of as many cells as there may be
    Recovery {
        plan: &[],
        runner: &[],
        source: b"int main(void) { int *p = malloc(1048576 * sizeof(int)); free(p); return 0; }",
        status: 0,
        report: "trace 4\n0 save\n0 malloc 1048576 @0.0\n0 free @0.0\n0 end\nending finished\noutput 0\n",
        verdict: "accepted 4 finished\n",
    },
    // a block that is freed twice fails again whatever is done
    Recovery {
        plan: &[],
        runner: &[],
        source: b"int main(void) { int *p = malloc(sizeof(int)); free(p); free(p); return 0; }",
        status: 1,
        report: "trace 4\n0 save\n0 malloc 1 @0.0\n0 free @0.0\n0 fault pointer\nending fault\noutput 0\n",
        verdict: "accepted 4 fault\n",
    },
];

fn gives(rt: &impl Abort, alloc: Global, row: Row<'_>) -> Result<(), Fail> {
    let answer = answer_to(alloc, row.words, row.source)?;
    assert_eq!(rt; answer.out.as_slice(), row.report.as_bytes());
    assert_eq!(rt; answer.status, row.status);
    assert_eq!(rt; answer.err.len(), 0);
    Ok(())
}

#[test]
fn worked_sources_have_their_reports(rt: HostRuntime) -> Result<(), Fail> {
    for row in ROWS {
        gives(&rt, rt.alloc(), row)?;
    }
    Ok(())
}

#[test]
fn hardened_sources_recover(rt: HostRuntime) -> Result<(), Fail> {
    let alloc = rt.alloc();
    for recovery in RECOVERIES {
        let words = joined(alloc, recovery.plan, recovery.runner)?;
        let row = Row {
            words: &words,
            source: recovery.source,
            status: recovery.status,
            report: recovery.report,
        };
        gives(&rt, alloc, row)?;
    }
    Ok(())
}

// What a check of a trace tells, and its status.
fn tells(
    rt: &impl Abort,
    alloc: Global,
    words: &[&str],
    source: &[u8],
    trace: &str,
    wanted: (u8, &str, &str),
) -> Result<(), Fail> {
    let front = ["check", "a.c", "t.txt"];
    let found = call(alloc, &front, words, source, trace.as_bytes())?;
    assert_eq!(rt; found.out.as_slice(), wanted.1.as_bytes());
    assert_eq!(rt; found.err.as_slice(), wanted.2.as_bytes());
    assert_eq!(rt; found.status, wanted.0);
    Ok(())
}

#[test]
fn a_report_is_accepted(rt: HostRuntime) -> Result<(), Fail> {
    for run in RECOVERIES {
        let accepted = (0, run.verdict, "");
        tells(&rt, rt.alloc(), run.plan, run.source, run.report, accepted)?;
    }
    Ok(())
}

const WATCHED: &str =
    "trace 9\n0 create 1\n1 save\n1 read @0.0 0\n1 retry s1\n0 write @0.0 1\n1 read @0.0 1\n1 end\n0 join 1\n0 end\n";

#[test]
fn a_trace_is_checked(rt: HostRuntime) -> Result<(), Fail> {
    let alloc = rt.alloc();
    tells(
        &rt,
        alloc,
        &[],
        WATCH,
        WATCHED,
        (0, "accepted 9 finished\n", ""),
    )?;
    // without hardening no entry is a save
    let no_save = (9, "", "conair: t.txt: entry 2 is not a step\n");
    tells(&rt, alloc, &["--plain"], WATCH, WATCHED, no_save)?;
    // no try is left
    let no_try = (9, "", "conair: t.txt: entry 4 is not a step\n");
    tells(&rt, alloc, &["--limit=0"], WATCH, WATCHED, no_try)?;
    for (trace, wanted) in [
        (
            "trace 3\n0 create 1\n1 read @0.0 0\n1 fault assert\n",
            (0, "accepted 3 fault\n", ""),
        ),
        (
            "trace 3\n0 create 1\n1 read @0.0 1\n1 fault assert\n",
            (9, "", "conair: t.txt: entry 2 is not a step\n"),
        ),
        ("trace 0\n", (0, "accepted 0 unended\n", "")),
        ("", (9, "", "conair: t.txt: line 1 is not a trace line\n")),
        (
            "trace 2\n0 end\n",
            (9, "", "conair: t.txt: line 3 is not a trace line\n"),
        ),
        (
            "trace 1\n0 jump\n",
            (9, "", "conair: t.txt: line 2 is not a trace line\n"),
        ),
        (
            "trace 1\n00 end\n",
            (9, "", "conair: t.txt: line 2 is not a trace line\n"),
        ),
        (
            "trace 1\n1 end\n",
            (9, "", "conair: t.txt: entry 1 is not a step\n"),
        ),
    ] {
        tells(&rt, alloc, &["--plain"], WATCH, trace, wanted)?;
    }
    let value = "trace 3\n0 create 1\n1 save\n1 read @0.0 1\n";
    let no_value = (9, "", "conair: t.txt: entry 3 is not a step\n");
    tells(&rt, alloc, &[], WATCH, value, no_value)
}

#[test]
fn a_cut_report_is_refused(rt: HostRuntime) -> Result<(), Fail> {
    let alloc = rt.alloc();
    let mut number = 1u32;
    for (end, byte) in WATCHED.as_bytes().iter().enumerate() {
        if *byte == b'\n' && number < 10 {
            number += 1;
            let text = format!(in alloc; "conair: t.txt: line {number} is not a trace line\n")?;
            let front = ["check", "a.c", "t.txt"];
            let found = call(alloc, &front, &[], WATCH, &WATCHED.as_bytes()[..end + 1])?;
            assert_eq!(&rt; found.err.as_slice(), text.as_str().as_bytes());
            assert_eq!(&rt; found.status, 9);
            assert_eq!(&rt; found.out.len(), 0);
        }
    }
    let cut = format!(in alloc; "{WATCHED}endi")?;
    let no_end = (9, "", "conair: t.txt: line 11 is not a trace line\n");
    tells(&rt, alloc, &[], WATCH, cut.as_str(), no_end)
}

const TABLES: [(&[&str], &[u8], &str); 8] = [
    (
        &[],
        OPPOSED_LOCKS,
        "sites 4\ns1 5:3 lock pruned:lock entry:one\ns2 6:3 lock planned entry:one\ns3 13:3 lock pruned:lock entry:two\ns4 14:3 lock planned entry:two\n",
    ),
    (
        &["--only", "4"],
        OPPOSED_LOCKS,
        "sites 4\ns1 5:3 lock pruned:lock entry:one\ns2 6:3 lock left entry:one\ns3 13:3 lock pruned:lock entry:two\ns4 14:3 lock planned entry:two\n",
    ),
    (
        &[],
        NULL_POINTER,
        "sites 2\ns1 3:18 load planned entry:use\ns2 10:3 store planned after:9:3\n",
    ),
    (
        &["--depth", "1"],
        THROUGH_CALLER,
        "sites 1\ns1 3:3 assert planned entry:f\n",
    ),
    (
        &["--depth=0"],
        THROUGH_CALLER,
        "sites 1\ns1 3:3 assert pruned:local entry:need\n",
    ),
    (
        &[],
        b"int main(void) { int x = 3; assert(x == 3); return 0; }",
        "sites 1\ns1 1:29 assert pruned:local entry:main\n",
    ),
    (
        &[],
        LOOP_POINTS,
        "sites 1\ns1 5:14 load planned entry:main after:7:5\n",
    ),
    (&[], EMPTY_MAIN, "sites 0\n"),
];

#[test]
fn sites_are_tabled(rt: HostRuntime) -> Result<(), Fail> {
    for (words, source, table) in TABLES {
        let found = call(rt.alloc(), &["sites", "a.c"], words, source, b"")?;
        assert_eq!(&rt; found.out.as_slice(), table.as_bytes());
        assert_eq!(&rt; found.err.len(), 0);
        assert_eq!(&rt; found.status, 0);
    }
    Ok(())
}

#[test]
fn a_number_is_no_site(rt: HostRuntime) -> Result<(), Fail> {
    let alloc = rt.alloc();
    for (only, text) in [
        ("9", "conair: no site s9\n"),
        ("0", "conair: no site s0\n"),
        ("1,7,8", "conair: no site s7\n"),
    ] {
        let run = answer_to(alloc, &["--only", only], WATCH)?;
        assert_eq!(&rt; run.err.as_slice(), text.as_bytes());
        assert_eq!(&rt; run.status, 2);
        assert_eq!(&rt; run.out.len(), 0);
        tells(&rt, alloc, &["--only", only], WATCH, "", (2, "", text))?;
        let sites = call(alloc, &["sites", "a.c"], &["--only", only], WATCH, b"")?;
        assert_eq!(&rt; sites.err.as_slice(), text.as_bytes());
        assert_eq!(&rt; sites.status, 2);
    }
    Ok(())
}

#[test]
fn a_file_may_fail(rt: HostRuntime) -> Result<(), Fail> {
    let alloc = rt.alloc();
    for (load, text) in [
        (1, "conair: cannot read a.c\n"),
        (2, "conair: cannot read t.txt\n"),
    ] {
        let words = ["check", "a.c", "t.txt"];
        let found = failing(alloc, &words, WATCH, WATCHED.as_bytes(), load, 0)?;
        assert_eq!(&rt; found.err.as_slice(), text.as_bytes());
        assert_eq!(&rt; found.status, 6);
        assert_eq!(&rt; found.out.len(), 0);
    }
    Ok(())
}

#[test]
fn a_put_may_fail(rt: HostRuntime) -> Result<(), Fail> {
    let alloc = rt.alloc();
    let table = TABLES[0].2.as_bytes();
    for put in 1..6u32 {
        let found = failing(alloc, &["sites", "a.c"], OPPOSED_LOCKS, b"", 0, put)?;
        let front = lines(alloc, table, put.saturating_sub(1))?;
        assert_eq!(&rt; found.out.as_slice(), front.as_slice());
        assert_eq!(&rt; found.status, 7);
    }
    let words = ["check", "a.c", "t.txt"];
    let found = failing(alloc, &words, WATCH, WATCHED.as_bytes(), 0, 1)?;
    assert_eq!(&rt; found.status, 7);
    assert_eq!(&rt; found.out.len(), 0);
    Ok(())
}

// A text with a piece in it that is there some times.
fn repeated(
    alloc: Global,
    front: &str,
    piece: &str,
    count: u32,
    back: &str,
) -> Result<String, AllocError> {
    let mut text = String::from_str(alloc, front)?;
    for _ in 0..count {
        text.push_str(piece)?;
    }
    text.push_str(back)?;
    Ok(text)
}

#[test]
fn there_are_up_to_20_000_frames(rt: HostRuntime) -> Result<(), Fail> {
    let alloc = rt.alloc();
    let report = repeated(
        alloc,
        "trace 19999\n",
        "0 call f0\n",
        19999,
        "ending frames\noutput 0\n",
    )?;
    let row = Row {
        words: &[],
        source: b"void f(void) { f(); } int main(void) { f(); return 0; }",
        status: 5,
        report: report.as_str(),
    };
    gives(&rt, alloc, row)
}

#[test]
fn there_are_up_to_64_threads(rt: HostRuntime) -> Result<(), Fail> {
    let alloc = rt.alloc();
    let mut report = String::from_str(alloc, "trace 191\n")?;
    for thread in 1..64u32 {
        let lines = format!(in alloc; "0 turn\n0 create {thread}\n{thread} end\n")?;
        report.push_str(lines.as_str())?;
    }
    report.push_str("0 turn\n0 fault thread\nending fault\noutput 0\n")?;
    let row = Row {
        words: &[],
        source: b"void *f(void *a) { return NULL; } int main(void) { int i = 0; while (i < 64) { pthread_t t; pthread_create(&t, NULL, f, NULL); i = i + 1; } return 0; }",
        status: 1,
        report: report.as_str(),
    };
    gives(&rt, alloc, row)
}

// Whether a line stands in a text.
fn has_line(text: &[u8], line: &[u8]) -> bool {
    text.split(|byte| *byte == b'\n').any(|found| found == line)
}

const ITEMS: [&[u8]; 6] = [
    b"item 10", b"item 11", b"item 12", b"item 20", b"item 21", b"item 22",
];

#[test]
fn a_buffer_under_ten_seeds(rt: HostRuntime) -> Result<(), Fail> {
    let alloc = rt.alloc();
    for seed in 1..11u32 {
        let word = format!(in alloc; "--seed={seed}")?;
        let plain = answer_to(alloc, &["--plain", word.as_str()], BOUNDED_BUFFER)?;
        assert!(&rt; plain.status == 0 || plain.status == 1);
        assert_eq!(&rt; plain.err.len(), 0);
        if plain.status == 1 {
            assert!(&rt; has_line(&plain.out, b"ending fault"));
        }
        let hardened = answer_to(alloc, &["--limit=10000", word.as_str()], BOUNDED_BUFFER)?;
        assert_eq!(&rt; hardened.status, 0);
        assert!(&rt; has_line(&hardened.out, b"ending finished"));
        for item in ITEMS {
            assert!(&rt; has_line(&hardened.out, item));
        }
        for (plan, run) in [("--plain", &plain), ("--limit=10000", &hardened)] {
            let front = ["check", "a.c", "t.txt"];
            let checked = call(alloc, &front, &[plan], BOUNDED_BUFFER, &run.out)?;
            assert_eq!(&rt; checked.status, 0);
        }
    }
    for words in [
        ["--schedule", "0,1,1,1,1,1"].as_slice(),
        &["--only", "2", "--schedule", "0,1,1,1,1,1"],
    ] {
        let first = answer_to(alloc, words, BOUNDED_BUFFER)?;
        assert_eq!(&rt; first.status, 0);
        assert!(&rt; has_line(&first.out, b"1 retry s2 m0"));
    }
    let cut = answer_to(alloc, &["--events", "50"], BOUNDED_BUFFER)?;
    assert_eq!(&rt; cut.status, 5);
    assert!(&rt; has_line(&cut.out, b"trace 50"));
    assert!(&rt; has_line(&cut.out, b"ending events"));
    Ok(())
}

const REFUSED: [&[&str]; 13] = [
    &["--limit", "10001"],
    &["--depth", "9"],
    &["--plain", "--only", "1"],
    &["--events", "0"],
    &["--events", "2000001"],
    &["--schedule", "64"],
    &["--schedule", "0,"],
    &["--seed", "4294967296"],
    &["--plain", "--plain"],
    &["--seed", "1", "--schedule", "0"],
    &["--workers", "0"],
    &["-p"],
    &["b.c"],
];

#[test]
fn other_words_are_refused(rt: HostRuntime) -> Result<(), Fail> {
    for words in REFUSED {
        let answer = answer_to(rt.alloc(), words, EMPTY_MAIN)?;
        assert_eq!(&rt; answer.status, 2);
        assert_eq!(&rt; answer.out.len(), 0);
        assert_eq!(&rt;
            answer.err.as_slice(),
            b"conair: words not understood\n".as_slice()
        );
    }
    Ok(())
}

#[test]
fn a_source_cut_anywhere_is_refused(rt: HostRuntime) -> Result<(), Fail> {
    let last = BOUNDED_BUFFER
        .iter()
        .rposition(|byte| *byte == b'}')
        .unwrap_or(0);
    for end in 0..last {
        let answer = answer_to(rt.alloc(), &[], &BOUNDED_BUFFER[..end])?;
        assert_eq!(&rt; answer.status, 3);
        assert_eq!(&rt; answer.out.len(), 0);
    }
    assert_eq!(&rt; last, 1620);
    Ok(())
}
