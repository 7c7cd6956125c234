// Projections and lifted lists of texts of traces, worked by hand.
use ca_check::{CheckNo, LiftNo, lift, project};
use ca_model::{Checked, Events, Plan, fits};
use ca_sources::{NULL_POINTER, OPPOSED_LOCKS, THROUGH_CALLER, WATCH};
use ca_traces::read_trace;
use ca_tree::listed::Listed;
use ca_tree::{FunId, ItemId, SiteId};
use ca_worked::typing;
use std::alloc::{AllocError, Global};
use std::test::Fail;

// A plan by its numbers.
#[derive(Clone, Copy)]
struct Planned {
    limit: u32,
    after: &'static [u32],
    entries: &'static [u32],
    sites: &'static [u32],
    acquires: &'static [u32],
}

const NONE: Planned = Planned {
    limit: 0,
    after: &[],
    entries: &[],
    sites: &[],
    acquires: &[],
};

const WATCHED: Planned = Planned {
    limit: 100,
    entries: &[0],
    sites: &[1],
    ..NONE
};

const OPPOSED: Planned = Planned {
    limit: 1,
    entries: &[0, 1],
    sites: &[2, 4],
    acquires: &[1, 8],
    ..NONE
};

// The second save stands behind the store of the pointer.
const POINTER: Planned = Planned {
    limit: 100,
    after: &[6],
    entries: &[0],
    sites: &[1, 2],
    ..NONE
};

// With a save at the entry of the called function too.
const CALLED: Planned = Planned {
    limit: 100,
    entries: &[0, 1],
    sites: &[1],
    ..NONE
};

fn items(alloc: Global, numbers: &[u32]) -> Result<Listed<ItemId>, AllocError> {
    let mut all = Vec::new(alloc);
    for number in numbers {
        all.push(ItemId(*number))?;
    }
    Ok(Listed::from_vec(all))
}

fn functions(alloc: Global, numbers: &[u32]) -> Result<Listed<FunId>, AllocError> {
    let mut all = Vec::new(alloc);
    for number in numbers {
        all.push(FunId(*number))?;
    }
    Ok(Listed::from_vec(all))
}

fn sites(alloc: Global, numbers: &[u32]) -> Result<Listed<SiteId>, AllocError> {
    let mut all = Vec::new(alloc);
    for number in numbers {
        all.push(SiteId(*number))?;
    }
    Ok(Listed::from_vec(all))
}

fn plan_of(alloc: Global, planned: Planned) -> Result<Plan, AllocError> {
    Ok(Plan {
        limit: planned.limit,
        saves_after: items(alloc, planned.after)?,
        saves_at_entry: functions(alloc, planned.entries)?,
        sites: sites(alloc, planned.sites)?,
        acquires: items(alloc, planned.acquires)?,
    })
}

// The answer of a call.
#[derive(Debug, PartialEq, Drop)]
enum Answer {
    List(Events),
    /// The entry at this index, counted from 0, is no step.
    NoStep(u32),
    /// The entry at this index is a fault.
    Fault(u32),
    /// There is no such source, plan or text, or memory ran out.
    Nothing,
}

#[derive(Clone, Copy)]
enum Wanted {
    /// The list of this text.
    Text(&'static [u8]),
    NoStep(u32),
    Fault(u32),
}

// A source, a plan, a text, and the answer for it.
type Row = (&'static [u8], Planned, &'static [u8], Wanted);

fn listed(alloc: Global, text: &[u8]) -> Answer {
    match read_trace(alloc, text) {
        Ok(events) => Answer::List(events),
        Err(_) => Answer::Nothing,
    }
}

fn wanted_of(alloc: Global, wanted: Wanted) -> Answer {
    match wanted {
        Wanted::Text(text) => listed(alloc, text),
        Wanted::NoStep(index) => Answer::NoStep(index),
        Wanted::Fault(index) => Answer::Fault(index),
    }
}

fn projected(alloc: Global, checked: &Checked, plan: &Plan, text: &[u8]) -> Answer {
    let Answer::List(events) = listed(alloc, text) else {
        return Answer::Nothing;
    };
    if !fits(checked, plan) {
        return Answer::Nothing;
    }
    match project(alloc, checked, plan, events.as_slice()) {
        Ok(list) => Answer::List(list),
        Err(CheckNo::NotARun { index }) => Answer::NoStep(index),
        Err(CheckNo::NoMemory) => Answer::Nothing,
    }
}

fn lifted(alloc: Global, checked: &Checked, plan: &Plan, text: &[u8]) -> Answer {
    let Answer::List(events) = listed(alloc, text) else {
        return Answer::Nothing;
    };
    if !fits(checked, plan) {
        return Answer::Nothing;
    }
    match lift(alloc, checked, plan, events.as_slice()) {
        Ok(list) => Answer::List(list),
        Err(LiftNo::NotARun { index }) => Answer::NoStep(index),
        Err(LiftNo::Fault { index }) => Answer::Fault(index),
        Err(LiftNo::NoMemory) => Answer::Nothing,
    }
}

const RECOVERED: &[u8] =
    b"trace 9\n0 create 1\n1 save\n1 read @0.0 0\n1 retry s1\n0 write @0.0 1\n1 read @0.0 1\n1 end\n0 join 1\n0 end\n";

const RECOVERED_PLAIN: &[u8] =
    b"trace 6\n0 create 1\n0 write @0.0 1\n1 read @0.0 1\n1 end\n0 join 1\n0 end\n";

const CROSSED: &[u8] =
    b"trace 25\n0 create 1\n0 create 2\n1 save\n1 lock m0\n2 save\n2 lock m1\n1 retry s2 m0\n2 lock m0\n2 read @0.0 0\n2 write @0.0 1\n2 unlock m0\n1 lock m0\n2 unlock m1\n1 lock m1\n2 end\n1 read @0.0 1\n1 write @0.0 2\n1 unlock m1\n1 unlock m0\n1 end\n0 join 1\n0 join 2\n0 read @0.0 2\n0 print 320a\n0 end\n";

const CROSSED_PLAIN: &[u8] =
    b"trace 21\n0 create 1\n0 create 2\n2 lock m1\n2 lock m0\n2 read @0.0 0\n2 write @0.0 1\n2 unlock m0\n1 lock m0\n2 unlock m1\n1 lock m1\n2 end\n1 read @0.0 1\n1 write @0.0 2\n1 unlock m1\n1 unlock m0\n1 end\n0 join 1\n0 join 2\n0 read @0.0 2\n0 print 320a\n0 end\n";

const STUCK: &[u8] =
    b"trace 10\n0 create 1\n0 create 2\n1 save\n1 lock m0\n2 save\n2 lock m1\n1 retry s2 m0\n1 lock m0\n2 retry s4 m1\n2 lock m1\n";

const STUCK_PLAIN: &[u8] = b"trace 4\n0 create 1\n0 create 2\n1 lock m0\n2 lock m1\n";

const PROJECTIONS: [Row; 8] = [
    (WATCH, WATCHED, RECOVERED, Wanted::Text(RECOVERED_PLAIN)),
    (
        WATCH,
        WATCHED,
        b"trace 9\n0 create 1\n1 save\n1 read @0.0 1\n1 retry s1\n0 write @0.0 1\n1 read @0.0 1\n1 end\n0 join 1\n0 end\n",
        Wanted::NoStep(2),
    ),
    // An attempt that goes on is kept; one that is abandoned isn't.
    (
        WATCH,
        WATCHED,
        b"trace 3\n0 create 1\n1 save\n1 read @0.0 0\n",
        Wanted::Text(b"trace 2\n0 create 1\n1 read @0.0 0\n"),
    ),
    (
        WATCH,
        WATCHED,
        b"trace 4\n0 create 1\n1 save\n1 read @0.0 0\n1 retry s1\n",
        Wanted::Text(b"trace 1\n0 create 1\n"),
    ),
    // A fault stays.
    (
        WATCH,
        NONE,
        b"trace 3\n0 create 1\n1 read @0.0 0\n1 fault assert\n",
        Wanted::Text(b"trace 3\n0 create 1\n1 read @0.0 0\n1 fault assert\n"),
    ),
    (WATCH, WATCHED, b"trace 0\n", Wanted::Text(b"trace 0\n")),
    (OPPOSED_LOCKS, OPPOSED, CROSSED, Wanted::Text(CROSSED_PLAIN)),
    // Both attempts are abandoned, and the deadlock is one of the source.
    (OPPOSED_LOCKS, OPPOSED, STUCK, Wanted::Text(STUCK_PLAIN)),
];

const LIFTS: [Row; 11] = [
    (
        WATCH,
        WATCHED,
        RECOVERED_PLAIN,
        Wanted::Text(
            b"trace 7\n0 create 1\n0 write @0.0 1\n1 save\n1 read @0.0 1\n1 end\n0 join 1\n0 end\n",
        ),
    ),
    (WATCH, NONE, RECOVERED_PLAIN, Wanted::Text(RECOVERED_PLAIN)),
    (WATCH, WATCHED, b"trace 0\n", Wanted::Text(b"trace 0\n")),
    (
        WATCH,
        WATCHED,
        b"trace 3\n0 create 1\n1 read @0.0 0\n1 fault assert\n",
        Wanted::Fault(2),
    ),
    // A wrong entry behind a fault.
    (
        WATCH,
        WATCHED,
        b"trace 4\n0 create 1\n1 read @0.0 0\n1 fault assert\n0 write @0.0 1\n",
        Wanted::NoStep(3),
    ),
    (WATCH, WATCHED, b"trace 1\n1 end\n", Wanted::NoStep(0)),
    // The source has no save.
    (
        WATCH,
        WATCHED,
        b"trace 2\n0 create 1\n1 save\n",
        Wanted::NoStep(1),
    ),
    (
        OPPOSED_LOCKS,
        OPPOSED,
        CROSSED_PLAIN,
        Wanted::Text(
            b"trace 23\n0 create 1\n0 create 2\n2 save\n2 lock m1\n2 lock m0\n2 read @0.0 0\n2 write @0.0 1\n2 unlock m0\n1 save\n1 lock m0\n2 unlock m1\n1 lock m1\n2 end\n1 read @0.0 1\n1 write @0.0 2\n1 unlock m1\n1 unlock m0\n1 end\n0 join 1\n0 join 2\n0 read @0.0 2\n0 print 320a\n0 end\n",
        ),
    ),
    (
        OPPOSED_LOCKS,
        OPPOSED,
        STUCK_PLAIN,
        Wanted::Text(b"trace 6\n0 create 1\n0 create 2\n1 save\n1 lock m0\n2 save\n2 lock m1\n"),
    ),
    // A save behind an item comes before the next entry of its thread, whatever others do.
    (
        NULL_POINTER,
        POINTER,
        b"trace 11\n0 create 1\n0 malloc 1 @1.0\n0 write @0.0 @1.0\n1 read @0.0 @1.0\n0 read @0.0 @1.0\n0 write @1.0 7\n1 read @1.0 7\n1 print 370a\n1 end\n0 join 1\n0 end\n",
        Wanted::Text(
            b"trace 13\n0 create 1\n0 malloc 1 @1.0\n0 write @0.0 @1.0\n1 save\n1 read @0.0 @1.0\n0 save\n0 read @0.0 @1.0\n0 write @1.0 7\n1 read @1.0 7\n1 print 370a\n1 end\n0 join 1\n0 end\n",
        ),
    ),
    // A save at the entry of a called function.
    (
        THROUGH_CALLER,
        CALLED,
        b"trace 8\n0 create 1\n0 write @0.0 1\n1 read @0.0 1\n1 call f0\n1 return 0\n1 end\n0 join 1\n0 end\n",
        Wanted::Text(
            b"trace 10\n0 create 1\n0 write @0.0 1\n1 save\n1 read @0.0 1\n1 call f0\n1 save\n1 return 0\n1 end\n0 join 1\n0 end\n",
        ),
    ),
];

#[test]
fn runs_have_their_projections(rt: HostRuntime) -> Result<(), Fail> {
    let alloc = rt.alloc();
    for (source, planned, text, wanted) in PROJECTIONS {
        let Ok(checked) = typing(alloc, source)? else {
            panic!(&rt; "no source");
        };
        let plan = plan_of(alloc, planned)?;
        let wanted = wanted_of(alloc, wanted);
        assert!(&rt; wanted != Answer::Nothing);
        let answer = projected(alloc, &checked, &plan, text);
        assert!(&rt; answer == wanted);
    }
    Ok(())
}

#[test]
fn source_runs_have_their_lifted_lists(rt: HostRuntime) -> Result<(), Fail> {
    let alloc = rt.alloc();
    for (source, planned, text, wanted) in LIFTS {
        let Ok(checked) = typing(alloc, source)? else {
            panic!(&rt; "no source");
        };
        let plan = plan_of(alloc, planned)?;
        let wanted = wanted_of(alloc, wanted);
        assert!(&rt; wanted != Answer::Nothing);
        let answer = lifted(alloc, &checked, &plan, text);
        assert!(&rt; answer == wanted);
    }
    Ok(())
}
