// Tables of what a thread does.
use crate::{Run, code_of};
use ca_flow::Code;
use ca_model::{Addr, Event, EventAct, FaultKind, Given, Gives, Plan, Value};
use ca_thread::{AdvanceNo, Next};
use ca_tree::{FunId, ItemId, Listed, MutexId, NoMemory, SiteId, Text};
use std::alloc::Global;
use std::process::Abort;
use std::test::Fail;

// An entry, in a table.
#[derive(Clone, Copy)]
pub(crate) enum Does<'a> {
    Read(Addr, Value),
    Write(Addr, Value),
    Lock(u32),
    Unlock(u32),
    Malloc(i64, Value),
    Free(Value),
    Print(&'a [u8]),
    Create(u32),
    Join(u32),
    Call(u32),
    Return(Value),
    Turn,
    End,
    Fault(FaultKind),
    Save,
    Retry(u32, &'a [Given]),
}

// What a thread does next, the site at which it may retry (0 where there is none), an entry that is refused there, one that
// is taken, and what is taken then.
pub(crate) type Move<'a> = (Next<'a>, u32, Does<'a>, Does<'a>, &'a [Given]);

pub(crate) fn at(block: u32, offset: i32) -> Addr {
    Addr { block, offset }
}

pub(crate) fn num(n: i32) -> Value {
    Value::Num(n)
}

pub(crate) fn cell(block: u32, offset: i32) -> Value {
    Value::Addr(at(block, offset))
}

pub(crate) fn act_of(alloc: Global, does: Does<'_>) -> Result<EventAct, NoMemory> {
    let act = match does {
        Does::Read(at, value) => EventAct::Read { at, value },
        Does::Write(at, value) => EventAct::Write { at, value },
        Does::Lock(m) => EventAct::Lock(MutexId(m)),
        Does::Unlock(m) => EventAct::Unlock(MutexId(m)),
        Does::Malloc(cells, at) => EventAct::Malloc { cells, at },
        Does::Free(at) => EventAct::Free { at },
        Does::Print(bytes) => EventAct::Print(Text::from_vec(Vec::from_slice(alloc, bytes)?)),
        Does::Create(u) => EventAct::Create(u),
        Does::Join(u) => EventAct::Join(u),
        Does::Call(f) => EventAct::Call(FunId(f)),
        Does::Return(value) => EventAct::Return(value),
        Does::Turn => EventAct::Turn,
        Does::End => EventAct::End,
        Does::Fault(kind) => EventAct::Fault(kind),
        Does::Save => EventAct::Save,
        Does::Retry(site, things) => EventAct::Retry {
            site: SiteId(site),
            gives: Gives::from_vec(Vec::from_slice(alloc, things)?),
        },
    };
    Ok(act)
}

pub(crate) fn event(alloc: Global, thread: u32, does: Does<'_>) -> Result<Event, NoMemory> {
    Ok(Event {
        thread,
        act: act_of(alloc, does)?,
    })
}

// An entry is refused, also where it would be prepared.
pub(crate) fn refuses(
    rt: &impl Abort,
    alloc: Global,
    run: &mut Run,
    does: Does<'_>,
) -> Result<(), Fail> {
    let one = event(alloc, run.thread(), does)?;
    assert_eq!(rt; run.prepare(&one), Err(AdvanceNo::NotNext));
    assert_eq!(rt; run.advance(&one), Err(AdvanceNo::NotNext));
    Ok(())
}

pub(crate) fn takes(
    rt: &impl Abort,
    alloc: Global,
    run: &mut Run,
    does: Does<'_>,
) -> Result<(), Fail> {
    let one = event(alloc, run.thread(), does)?;
    assert_eq!(rt; run.advance(&one), Ok(()));
    Ok(())
}

fn site_of(run: &Run) -> u32 {
    match run.can_retry() {
        Some(site) => site.0,
        None => 0,
    }
}

// A thread goes on by a table, and has that many events then.
pub(crate) fn follow(
    rt: &impl Abort,
    alloc: Global,
    run: &mut Run,
    moves: &[Move<'_>],
) -> Result<(), Fail> {
    for (next, retry, wrong, right, taken) in moves {
        assert_eq!(rt; run.next(), *next);
        assert_eq!(rt; site_of(run), *retry);
        refuses(rt, alloc, run, *wrong)?;
        assert_eq!(rt; run.next(), *next);
        takes(rt, alloc, run, *right)?;
        assert_eq!(rt; run.taken(), *taken);
    }
    Ok(())
}

// A thread that has ended or failed takes nothing more.
pub(crate) fn is_over(rt: &impl Abort, alloc: Global, run: &mut Run) -> Result<(), Fail> {
    let all = [
        Does::Read(at(0, 0), num(0)),
        Does::Write(at(0, 0), num(0)),
        Does::Lock(0),
        Does::Unlock(0),
        Does::Malloc(1, num(0)),
        Does::Free(num(0)),
        Does::Print(b""),
        Does::Create(1),
        Does::Join(1),
        Does::Call(0),
        Does::Return(num(0)),
        Does::Turn,
        Does::End,
        Does::Fault(FaultKind::Assert),
        Does::Save,
        Does::Retry(1, &[]),
    ];
    for does in all {
        assert_eq!(rt; run.next(), Next::Ended);
        assert_eq!(rt; site_of(run), 0);
        refuses(rt, alloc, run, does)?;
    }
    Ok(())
}

// A plan of a limit, the items with a save behind them, the functions with a save at their entry, its sites, and the items
// that acquire.
pub(crate) fn plan(
    alloc: Global,
    limit: u32,
    after: &[ItemId],
    entry: &[FunId],
    sites: &[SiteId],
    acquires: &[ItemId],
) -> Result<Plan, NoMemory> {
    Ok(Plan {
        limit,
        saves_after: Listed::from_vec(Vec::from_slice(alloc, after)?),
        saves_at_entry: Listed::from_vec(Vec::from_slice(alloc, entry)?),
        sites: Listed::from_vec(Vec::from_slice(alloc, sites)?),
        acquires: Listed::from_vec(Vec::from_slice(alloc, acquires)?),
    })
}

// A thread of a source at its start.
pub(crate) fn start(
    rt: &impl Abort,
    alloc: Global,
    text: &[u8],
    plan: &Plan,
    thread: u32,
    function: u32,
    argument: Value,
) -> Result<Run, Fail> {
    let code = code_of(alloc, text, plan)?;
    let Some(code) = code else {
        panic!(rt; "no code");
    };
    let run = Run::start(alloc, code, thread, function, argument)?;
    let Some(run) = run else {
        panic!(rt; "no start");
    };
    Ok(run)
}
