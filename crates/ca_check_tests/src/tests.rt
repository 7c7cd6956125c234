// Texts of traces of worked sources, with their verdicts, worked by hand.
use ca_check::{CheckNo, check};
use ca_model::{Ending, FaultKind, Plan, fits};
use ca_sources::{EMPTY_MAIN, OPPOSED_LOCKS, WATCH};
use ca_traces::{TraceNo, read_trace};
use ca_tree::listed::Listed;
use ca_tree::{FunId, SiteId};
use ca_worked::typing;
use std::alloc::Global;
use std::test::Fail;

// What a text is as a trace of a source.
#[derive(Clone, Copy, Debug, PartialEq, Eq)]
enum Verdict {
    /// It is a run with this ending.
    Accepted(Ending),
    /// This line, counted from 1, has no reading.
    NoLine(u32),
    /// The entry at this index, counted from 0, is no step.
    NoStep(u32),
    /// The source is none, or memory ran out.
    Nothing,
}

// The verdict on a text under a plan that fits the source.
fn judged_under(alloc: Global, source: &[u8], plan: &Plan, text: &[u8]) -> Result<Verdict, Fail> {
    let Ok(checked) = typing(alloc, source)? else {
        return Ok(Verdict::Nothing);
    };
    if !fits(&checked, plan) {
        return Ok(Verdict::Nothing);
    }
    let events = match read_trace(alloc, text) {
        Ok(events) => events,
        Err(TraceNo::Fault { line }) => return Ok(Verdict::NoLine(line)),
        Err(TraceNo::NoMemory) => return Ok(Verdict::Nothing),
    };
    match check(alloc, &checked, plan, events.as_slice()) {
        Ok(ending) => Ok(Verdict::Accepted(ending)),
        Err(CheckNo::NotARun { index }) => Ok(Verdict::NoStep(index)),
        Err(CheckNo::NoMemory) => Ok(Verdict::Nothing),
    }
}

// The verdict on a text without a plan.
fn judged(alloc: Global, source: &[u8], text: &[u8]) -> Result<Verdict, Fail> {
    judged_under(alloc, source, &Plan::empty(alloc), text)
}

const ASSERTED: Verdict = Verdict::Accepted(Ending::Fault(FaultKind::Assert));

const ROWS: [(&[u8], &[u8], Verdict); 15] = [
    (
        EMPTY_MAIN,
        b"trace 1\n0 end\n",
        Verdict::Accepted(Ending::Finished),
    ),
    (EMPTY_MAIN, b"trace 0\n", Verdict::Accepted(Ending::Unended)),
    (EMPTY_MAIN, b"trace 1\n0 turn\n", Verdict::NoStep(0)),
    (EMPTY_MAIN, b"trace 2\n0 end\n0 end\n", Verdict::NoStep(1)),
    (EMPTY_MAIN, b"", Verdict::NoLine(1)),
    (EMPTY_MAIN, b"trace 2\n0 end\n", Verdict::NoLine(3)),
    (EMPTY_MAIN, b"trace 1\n00 end\n", Verdict::NoLine(2)),
    (EMPTY_MAIN, b"trace 1\n0 jump\n", Verdict::NoLine(2)),
    (
        WATCH,
        b"trace 3\n0 create 1\n1 read @0.0 0\n1 fault assert\n",
        ASSERTED,
    ),
    (
        WATCH,
        b"trace 3\n0 create 1\n1 read @0.0 0\n1 fault assert\nending fault\noutput 0\n",
        ASSERTED,
    ),
    (
        WATCH,
        b"trace 3\n0 create 1\n1 read @0.0 1\n1 fault assert\n",
        Verdict::NoStep(1),
    ),
    (
        WATCH,
        b"trace 3\n0 create 1\n1 save\n1 read @0.0 0\n",
        Verdict::NoStep(1),
    ),
    (
        WATCH,
        b"trace 6\n0 create 1\n0 write @0.0 1\n1 read @0.0 1\n1 end\n0 join 1\n0 end\n",
        Verdict::Accepted(Ending::Finished),
    ),
    (
        OPPOSED_LOCKS,
        b"trace 4\n0 create 1\n0 create 2\n1 lock m0\n2 lock m1\n",
        Verdict::Accepted(Ending::Deadlock),
    ),
    (
        OPPOSED_LOCKS,
        b"trace 4\n0 create 1\n0 create 2\n1 lock m0\n2 lock m0\n",
        Verdict::NoStep(3),
    ),
];

#[test]
fn texts_have_their_verdicts(rt: HostRuntime) -> Result<(), Fail> {
    for (source, text, wanted) in ROWS {
        assert_eq!(&rt; judged(rt.alloc(), source, text)?, wanted);
    }
    Ok(())
}

// A plan with a save at the entry of `main` and none where the thread that asserts can go back to: it fits, and it is not sound.
fn useless_plan(alloc: Global) -> Result<Plan, Fail> {
    Ok(Plan {
        limit: 2,
        saves_at_entry: Listed::from_vec(Vec::from_slice(alloc, &[FunId(1)])?),
        sites: Listed::from_vec(Vec::from_slice(alloc, &[SiteId(1)])?),
        ..Plan::empty(alloc)
    })
}

#[test]
fn a_plan_need_not_be_sound(rt: HostRuntime) -> Result<(), Fail> {
    let alloc = rt.alloc();
    let plan = useless_plan(alloc)?;
    let rows: [(&[u8], Verdict); 3] = [
        (
            b"trace 4\n0 save\n0 create 1\n1 read @0.0 0\n1 fault assert\n",
            ASSERTED,
        ),
        (
            b"trace 4\n0 save\n0 create 1\n1 read @0.0 0\n1 retry s1\n",
            Verdict::NoStep(3),
        ),
        (b"trace 1\n0 create 1\n", Verdict::NoStep(0)),
    ];
    for (text, wanted) in rows {
        assert_eq!(&rt; judged_under(alloc, WATCH, &plan, text)?, wanted);
    }
    Ok(())
}
