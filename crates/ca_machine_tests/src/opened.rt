//! Machines of sources under plans, and how they go on.
use ca_machine::{Choice, Fresh, Machine, StepNo};
use ca_model::{Ending, Plan, fits};
use ca_sched::Schedule;
use ca_tree::listed::Listed;
use ca_tree::{FunId, ItemId, NoMemory, SiteId};
use ca_worked::typing;
use std::alloc::{AllocError, Global};
use std::process::Abort;
use std::test::Fail;

/// The limit, functions with a save at their entry, sites, acquiring items.
pub(crate) type Planned<'a> = (u32, &'a [u32], &'a [u32], &'a [u32]);

pub(crate) const NONE: Planned<'static> = (0, &[], &[], &[]);

/// Each of two threads that take two mutexes in opposed orders may go back at its second lock.
pub(crate) const OPPOSED: Planned<'static> = (100, &[0, 1], &[2, 4], &[1, 8]);

fn items(alloc: Global, numbers: &[u32]) -> Result<Listed<ItemId>, AllocError> {
    let mut all = Vec::new(alloc);
    for number in numbers {
        all.push(ItemId(*number))?;
    }
    Ok(Listed::from_vec(all))
}

fn functions(alloc: Global, numbers: &[u32]) -> Result<Listed<FunId>, AllocError> {
    let mut all = Vec::new(alloc);
    for number in numbers {
        all.push(FunId(*number))?;
    }
    Ok(Listed::from_vec(all))
}

fn sites(alloc: Global, numbers: &[u32]) -> Result<Listed<SiteId>, AllocError> {
    let mut all = Vec::new(alloc);
    for number in numbers {
        all.push(SiteId(*number))?;
    }
    Ok(Listed::from_vec(all))
}

fn plan_of(alloc: Global, case: Planned<'_>) -> Result<Plan, AllocError> {
    Ok(Plan {
        limit: case.0,
        saves_after: items(alloc, &[])?,
        saves_at_entry: functions(alloc, case.1)?,
        sites: sites(alloc, case.2)?,
        acquires: items(alloc, case.3)?,
    })
}

/// The opening of a source under a plan that fits it.
pub(crate) fn opened(
    rt: &impl Abort,
    alloc: Global,
    text: &[u8],
    case: Planned<'_>,
) -> Result<Machine, Fail> {
    let checked = match typing(alloc, text)? {
        Ok(checked) => checked,
        Err(_) => panic!(rt; "no source"),
    };
    let plan = plan_of(alloc, case)?;
    if !fits(&checked, &plan) {
        panic!(rt; "no plan of the source");
    }
    let machine = Machine::start(alloc, &checked, &plan)?;
    Ok(machine)
}

/// Goes on as the runner does. Where there are more entries already than there may be, nothing is done.
pub(crate) fn go_on(
    alloc: Global,
    machine: &mut Machine,
    schedule: &mut Schedule,
    events: u32,
    patience: u32,
) -> Result<Ending, NoMemory> {
    let there = machine.shared().trace().len();
    if there > events as usize || events >= 4_000_000_000 {
        return Ok(Ending::Unended);
    }
    machine.run_alone(alloc, schedule, events, patience)
}

pub(crate) fn list(alloc: Global, numbers: &[u32]) -> Result<Schedule, AllocError> {
    let all = Vec::from_slice(alloc, numbers)?;
    Ok(Schedule::list(all))
}

/// A step with the least block for a `malloc`, and no retry at a held lock.
pub(crate) fn step(alloc: Global, machine: &mut Machine, thread: u32) -> Result<(), StepNo> {
    let choice = Choice {
        fresh: Fresh::Least,
        timeout: false,
    };
    machine.step(alloc, thread, choice)
}

/// A machine after steps of these threads.
pub(crate) fn stepped(
    rt: &impl Abort,
    alloc: Global,
    text: &[u8],
    case: Planned<'_>,
    threads: &[u32],
) -> Result<Machine, Fail> {
    let mut machine = opened(rt, alloc, text, case)?;
    for thread in threads {
        assert_eq!(rt; step(alloc, &mut machine, *thread), Ok(()));
    }
    Ok(machine)
}
