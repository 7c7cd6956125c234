//! What an entry of a thread's own changes. All that takes memory is made first, and then changes it without memory.

ghost use Rattle.std.specs.Prelude.{◌≡◌, ◌<◌, ◌&&◌, List, IfSome, not, is_some, vec_len, vec_capacity};
ghost use Rattle.ca_model.specs.Frames.{Frame};
ghost use Rattle.ca_model.specs.Hardened.{Hardened, hardened_advance, retry_site, is_failing};
ghost use Rattle.ca_flow.specs.Lowerings.{Lowering, rules_of};
ghost use Rattle.ca_thread.specs.Changes.{StandsAs, Makes, Changes};
ghost use Rattle.ca_thread.specs.Entered.{IsAnswer};
ghost use Rattle.ca_thread.specs.Kept.{AreKept, HavePlace, HaveTries};
ghost use Rattle.ca_thread.specs.Privates.{IsTextAt};
ghost use Rattle.ca_thread.specs.Standing.{AreStanding};

use crate::frames::RunningFrame;
use crate::gives::{is_part, latest_first};
use crate::moves::{callee, go};
use crate::saved::{SavedState, saved_after, take_given, try_again};
use crate::stack::go_on_top;
use crate::top::{answer_at_top, given_at_top, may_fault_at_top, retry_at_top, saves_at_top};
use ca_flow::Code;
use ca_model::{EventAct, FaultKind, Given, Value};
use ca_tree::SiteId;
use std::alloc::Global;

/// Why a private state doesn't go on: it doesn't allow the event, or memory is wanting.
#[derive(Clone, Copy, Debug, PartialEq, Eq)]
pub enum AdvanceNo {
    NotNext,
    NoMemory,
}

/// What an entry changes, with all that takes memory.
#[derive(Debug, Drop)]
pub(crate) enum Change {
    /// It answers what the thread wants, which may begin a frame.
    Answer {
        answer: Value,
        taken: Option<Given>,
        callee: Option<RunningFrame>,
    },
    /// After a fault nothing is left of the thread.
    Fault,
    Save(SavedState),
    /// The saved frames again; the site was tried so often with this one.
    Retry {
        site: SiteId,
        count: u32,
        frames: Vec<RunningFrame>,
    },
}

// An entry that answers what the thread wants, beside saves, retries and faults.
fn answer_change(
    alloc: Global,
    code: &Code,
    frames: &[RunningFrame],
    text: &[u8],
    act: &EventAct,
) -> Result<Change, AdvanceNo>
    requires text { IsTextAt code.now frames.now text.now }
    requires answer { IsAnswer act.now }
    requires stands { (h : List Frame) × AreStanding code.now frames.now h }
    ensures { (h : Hardened) → AreStanding code.now frames.now h.frames → Changes code.now h (hardened_advance (rules_of code.now) h act.now) result }
{
    let Some(answer) = answer_at_top(code, frames, text, act) else {
        return Err(AdvanceNo::NotNext);
    };
    let taken = given_at_top(code, frames, act);
    let Ok(callee) = callee(alloc, code, frames) else {
        return Err(AdvanceNo::NoMemory);
    };
    Ok(Change::Answer {
        answer,
        taken,
        callee,
    })
}

// A fault comes where it may, but in the place of a retry.
fn fault_comes(retry: Option<SiteId>, kind: FaultKind, may: bool) -> bool
    ensures { result ≡ (not (is_some retry && is_failing kind) && may) }
{
    let fails = matches!(kind, FaultKind::Assert | FaultKind::Pointer);
    !(retry.is_some() && fails) && may
}

fn fault_change(
    code: &Code,
    frames: &[RunningFrame],
    retry: Option<SiteId>,
    kind: FaultKind,
) -> Result<Change, AdvanceNo>
    ensures { (h : Hardened) → AreStanding code.now frames.now h.frames → retry ≡ retry_site (rules_of code.now) h → Changes code.now h (hardened_advance (rules_of code.now) h (EventAct.Fault kind)) result }
{
    let may = may_fault_at_top(code, frames, kind);
    if fault_comes(retry, kind, may) {
        Ok(Change::Fault)
    } else {
        Err(AdvanceNo::NotNext)
    }
}

fn save_change(alloc: Global, code: &Code, frames: &[RunningFrame]) -> Result<Change, AdvanceNo>
    ensures { (h : Hardened) → AreStanding code.now frames.now h.frames → Changes code.now h (hardened_advance (rules_of code.now) h EventAct.Save) result }
{
    if !saves_at_top(code, frames) {
        return Err(AdvanceNo::NotNext);
    }
    let Ok(state) = saved_after(alloc, code, frames) else {
        return Err(AdvanceNo::NoMemory);
    };
    Ok(Change::Save(state))
}

// A retry gives back a part of what was taken, the latest first.
fn retry_change(
    alloc: Global,
    saved: &Option<SavedState>,
    retry: Option<SiteId>,
    site: SiteId,
    gives: &[Given],
) -> Result<Change, AdvanceNo>
    requires few { IfSome retry (HaveTries saved.now) }
    ensures { (l : Lowering) (h : Hardened) → AreKept l saved.now h.saved → retry ≡ retry_site (rules_of l) h → Changes l h (hardened_advance (rules_of l) h (EventAct.Retry site gives.now)) result }
{
    let Some(at) = retry else {
        return Err(AdvanceNo::NotNext);
    };
    if at.0 != site.0 {
        return Err(AdvanceNo::NotNext);
    }
    let Some(saved) = saved else {
        return Err(AdvanceNo::NotNext);
    };
    let Ok(list) = latest_first(alloc, saved.taken()) else {
        return Err(AdvanceNo::NoMemory);
    };
    if !is_part(gives, &list) {
        return Err(AdvanceNo::NotNext);
    }
    let Ok(frames) = saved.frames(alloc) else {
        return Err(AdvanceNo::NoMemory);
    };
    Ok(Change::Retry {
        site,
        count: saved.tries(site) + 1,
        frames,
    })
}

/// The change by an entry of the thread's own.
pub(crate) fn change_by(
    alloc: Global,
    code: &Code,
    frames: &[RunningFrame],
    saved: &Option<SavedState>,
    text: &[u8],
    act: &EventAct,
) -> Result<Change, AdvanceNo>
    requires text { IsTextAt code.now frames.now text.now }
    requires stands { (h : List Frame) × AreStanding code.now frames.now h }
    ensures { (h : Hardened) → StandsAs code.now frames.now saved.now h → Changes code.now h (hardened_advance (rules_of code.now) h act.now) result }
{
    match act {
        EventAct::Fault(kind) => {
            fault_change(code, frames, retry_at_top(code, frames, saved), *kind)
        }
        EventAct::Save => save_change(alloc, code, frames),
        EventAct::Retry { site, gives } => {
            let retry = retry_at_top(code, frames, saved);
            retry_change(alloc, saved, retry, *site, gives.as_slice())
        }
        EventAct::Read { .. } | EventAct::Write { .. } | EventAct::Lock(_) => {
            answer_change(alloc, code, frames, text, act)
        }
        EventAct::Unlock(_) | EventAct::Malloc { .. } | EventAct::Free { .. } => {
            answer_change(alloc, code, frames, text, act)
        }
        EventAct::Print(_) | EventAct::Create(_) | EventAct::Join(_) => {
            answer_change(alloc, code, frames, text, act)
        }
        EventAct::Call(_) | EventAct::Return(_) | EventAct::Turn | EventAct::End => {
            answer_change(alloc, code, frames, text, act)
        }
    }
}

/// Changes a thread.
pub(crate) fn apply(
    code: &Code,
    frames: &mut Vec<RunningFrame>,
    saved: &mut Option<SavedState>,
    change: Change,
)
    requires frame { vec_len frames.old < vec_capacity frames.old }
    requires places { HavePlace saved.old }
    ensures { (h k : Hardened) → StandsAs code.now frames.old.items saved.old h → Makes code.now h change k → StandsAs code.now frames.new.items saved.new k }
{
    match change {
        Change::Answer {
            answer,
            taken,
            callee,
        } => {
            go(code, frames, answer, callee);
            take_given(saved, taken);
        }
        Change::Fault => frames.clear(),
        Change::Save(state) => {
            go_on_top(code, frames, Value::Num(0));
            *saved = Some(state);
        }
        Change::Retry {
            site,
            count,
            frames: copy,
        } => {
            *frames = copy;
            try_again(saved, site, count);
        }
    }
}
